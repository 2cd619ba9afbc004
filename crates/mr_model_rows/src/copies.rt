//! Copies of changes, transactions and sessions.

ghost use Rattle.std.specs.Prelude.{◌≡◌, ◌++◌, ◌∷◌, take, drop, reverse, OnOk, IfOk};

use mr_base::Memory;
use mr_spec::{Savepoint, Session, SessionList, Txn};
use mr_types::{Change, ChangeList, NameList};
use sqlite_items::Items;
use std::alloc::Global;

/// These items with one in front of them.
pub fn in_front<T: Drop>(alloc: Global, first: T, rest: Items<T>) -> Result<Items<T>, Memory>
    ensures { IfOk result (λ all. all ≡ first ∷ rest) }
{
    let mut all = Items::new(alloc);
    all.push(first)?;
    all.append(rest)?;
    Ok(all)
}

/// Takes the items from a place on, the last one first.
#[tactic(auto, using(crate::proofs::Moved::popped, crate::proofs::Moved::rest_of, crate::proofs::Moved::taken))]
pub fn take_off<T: Drop>(alloc: Global, items: &mut Items<T>, at: usize) -> Result<Items<T>, Memory>
    ensures rest { OnOk result (items.new ≡ take at items.old) }
    ensures taken { IfOk result (λ off. off ≡ reverse (drop at items.old)) }
{
    let mut off = Items::new(alloc);
    while items.len() > at {
        if let Some(last) = items.pop() {
            off.push(last)?;
        }
    }
    Ok(off)
}

/// These items with one more at a place, at the end where they are fewer.
pub fn insert_at<T: Drop>(
    alloc: Global,
    items: Items<T>,
    at: usize,
    item: T,
) -> Result<Items<T>, Memory>
    ensures { IfOk result (λ all. all ≡ take at items ++ item ∷ drop at items) }
{
    let mut all = items;
    let mut behind = take_off(alloc, &mut all, at)?;
    all.push(item)?;
    all.append(take_off(alloc, &mut behind, 0)?)?;
    Ok(all)
}

/// A copy of this change.
pub fn copy_change(alloc: Global, change: &Change) -> Result<Change, Memory>
    ensures { IfOk result (λ c. c ≡ change.now) }
{
    match change {
        Change::Insert { table, new } => Ok(Change::Insert {
            table: table.copy(alloc)?,
            new: new.copy(alloc)?,
        }),
        Change::Update { table, old, new } => Ok(Change::Update {
            table: table.copy(alloc)?,
            old: old.copy(alloc)?,
            new: new.copy(alloc)?,
        }),
        Change::Delete { table, old } => Ok(Change::Delete {
            table: table.copy(alloc)?,
            old: old.copy(alloc)?,
        }),
    }
}

/// A copy of these changes.
pub fn copy_changes(alloc: Global, changes: &[Change]) -> Result<ChangeList, Memory>
    ensures { IfOk result (λ all. all ≡ changes.now) }
{
    let mut all = ChangeList::new(alloc);
    for change in changes {
        all.push(copy_change(alloc, change)?)?;
    }
    Ok(all)
}

fn copy_names(alloc: Global, names: &NameList) -> Result<NameList, Memory>
    ensures { IfOk result (λ all. all ≡ names.now) }
{
    let mut all = NameList::new(alloc);
    for name in names.as_slice() {
        all.push(name.copy(alloc)?)?;
    }
    Ok(all)
}

/// A copy of this savepoint.
pub fn copy_savepoint(alloc: Global, savepoint: &Savepoint) -> Result<Savepoint, Memory>
    ensures { IfOk result (λ s. s ≡ savepoint.now) }
{
    Ok(Savepoint {
        name: savepoint.name.copy(alloc)?,
        kept: savepoint.kept,
    })
}

/// A copy of these savepoints.
fn copy_savepoints(alloc: Global, savepoints: &[Savepoint]) -> Result<Items<Savepoint>, Memory>
    ensures { IfOk result (λ all. all ≡ savepoints.now) }
{
    let mut all = Items::new(alloc);
    for savepoint in savepoints {
        all.push(copy_savepoint(alloc, savepoint)?)?;
    }
    Ok(all)
}

/// A copy of this transaction.
pub fn copy_txn(alloc: Global, txn: &Txn) -> Result<Txn, Memory>
    ensures { IfOk result (λ t. t ≡ txn.now) }
{
    Ok(Txn {
        snapshot: txn.snapshot,
        changes: copy_changes(alloc, txn.changes.as_slice())?,
        savepoints: copy_savepoints(alloc, txn.savepoints.as_slice())?,
        used: copy_names(alloc, &txn.used)?,
    })
}

/// A copy of this session.
pub fn copy_session(alloc: Global, session: &Session) -> Result<Session, Memory>
    ensures { IfOk result (λ s. s ≡ session.now) }
{
    Ok(Session {
        name: session.name.copy(alloc)?,
        txn: match &session.txn {
            None => None,
            Some(txn) => Some(copy_txn(alloc, txn)?),
        },
    })
}

/// A copy of these sessions.
pub fn copy_sessions(alloc: Global, sessions: &[Session]) -> Result<SessionList, Memory>
    ensures { IfOk result (λ all. all ≡ sessions.now) }
{
    let mut all = SessionList::new(alloc);
    for session in sessions {
        all.push(copy_session(alloc, session)?)?;
    }
    Ok(all)
}
