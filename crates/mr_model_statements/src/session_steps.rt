//! Statements on transactions and sessions.

ghost use Rattle.std.specs.Prelude.{◌≡◌, ◌++◌, ◌∷◌, [], take, find, filter, not, codes, unwrap_or, OnOk, IfOk};
ghost use Rattle.std.specs.List.{list_any};
ghost use Rattle.mr_types.specs.Refusals.{some_or};
ghost use Rattle.mr_types.specs.Values.{Answers};
ghost use Rattle.mr_spec.specs.World.{is_session as has_session_name, turned_to, fresh as fresh_of, with_txn};
ghost use Rattle.mr_spec.specs.Outcome.{done};
ghost use Rattle.mr_spec.specs.SessionSteps.{new_txn as new_txn_of, is_savepoint as has_savepoint_name, with_savepoint as savepoint_made, savepoints_before as in_front_of, rolled_back_to, released, session_outcome};
ghost use Rattle.std.specs.Option.{option_map};
ghost use Rattle.mr_model_engine.specs.Worlds.{world_in};
ghost use Rattle.mr_model_engine.specs.Acting.{Acts, Gives, outcome_in};

use mr_base::{Blob, Memory};
use mr_model_engine::{Engine, fresh_session};
use mr_model_rows::{
    copy_changes, copy_savepoint, copy_session, copy_sessions, copy_txn, in_front,
};
use mr_schema::is_same_name;
use mr_spec::{Savepoint, Session, SessionList, Txn};
use mr_types::{Change, ChangeList, Refused, Reply};
use sqlite_items::Items;
use std::alloc::Global;
use std::cmp::min;

// ---- transactions

/// A transaction that begins. With `snapshot` its snapshot is fixed at once.
fn new_txn(alloc: Global, engine: &Engine, snapshot: bool) -> Txn
    ensures { result ≡ new_txn_of snapshot (world_in engine.now) }
{
    Txn {
        snapshot: if snapshot {
            Some(engine.commits.len() as u64)
        } else {
            None
        },
        changes: Items::new(alloc),
        savepoints: Items::new(alloc),
        used: Items::new(alloc),
    }
}

/// BEGIN.
pub fn begin(alloc: Global, engine: &mut Engine, snapshot: bool) -> Reply
    ensures { outcome_in engine.new result ≡ done (with_txn (Some (new_txn_of snapshot (world_in engine.old))) (world_in engine.old)) 0 }
{
    let txn = new_txn(alloc, engine, snapshot);
    engine.set_txn(Some(txn));
    Reply::Ok(0)
}

// ---- savepoints

fn is_savepoint(name: &[u8], savepoint: &Savepoint) -> bool
    ensures { result ≡ has_savepoint_name name.now savepoint.now }
{
    is_same_name(savepoint.name.as_slice(), name)
}

fn other_savepoints(
    alloc: Global,
    name: &[u8],
    savepoints: &[Savepoint],
) -> Result<Items<Savepoint>, Memory>
    ensures { IfOk result (λ all. all ≡ filter (λ s. not (has_savepoint_name name.now s)) savepoints.now) }
{
    let mut all = Items::new(alloc);
    for savepoint in savepoints {
        if !is_savepoint(name, savepoint) {
            all.push(copy_savepoint(alloc, savepoint)?)?;
        }
    }
    Ok(all)
}

fn savepoints_before(
    alloc: Global,
    name: &[u8],
    savepoints: &[Savepoint],
) -> Result<Items<Savepoint>, Memory>
    ensures { IfOk result (λ all. all ≡ in_front_of name.now savepoints.now) }
{
    let mut all = Items::new(alloc);
    for savepoint in savepoints {
        if is_savepoint(name, savepoint) {
            return Ok(all);
        }
        all.push(copy_savepoint(alloc, savepoint)?)?;
    }
    Ok(all)
}

/// The transaction with a savepoint, which is the last one; one of the same name goes.
fn with_savepoint(alloc: Global, name: &[u8], txn: Txn) -> Result<Txn, Memory>
    ensures { IfOk result (λ t. t ≡ savepoint_made name.now txn) }
{
    let kept = txn.changes.len() as u64;
    let mut savepoints = other_savepoints(alloc, name, txn.savepoints.as_slice())?;
    savepoints.push(Savepoint {
        name: Blob::from_slice(alloc, name)?,
        kept,
    })?;
    let mut txn = txn;
    txn.savepoints = savepoints;
    Ok(txn)
}

/// SAVEPOINT. Outside a transaction it keeps nothing.
pub fn savepoint(alloc: Global, engine: &mut Engine, name: &[u8]) -> Result<Reply, Memory>
    ensures { Gives engine.new result (done (with_txn (option_map (savepoint_made name.now) (world_in engine.old).here.txn) (world_in engine.old)) 0) }
{
    let view = engine.view.take();
    if let Some(txn) = engine.here.txn.take() {
        engine.here.txn = Some(with_savepoint(alloc, name, txn)?);
        engine.view = view;
    }
    Ok(Reply::Ok(0))
}

/// The savepoint of this name, else 1305.
fn savepoint_of(alloc: Global, txn: &Txn, name: &[u8]) -> Result<Savepoint, Refused>
    ensures { Answers result (some_or 1305 (find (has_savepoint_name name.now) txn.now.savepoints)) }
{
    for savepoint in txn.savepoints.as_slice() {
        if is_savepoint(name, savepoint) {
            return Ok(copy_savepoint(alloc, savepoint)?);
        }
    }
    Err(Refused::Sql(1305))
}

/// The transaction with the savepoints in front of the one of this name.
fn before_savepoint(alloc: Global, name: &[u8], txn: &Txn) -> Result<Txn, Memory>
    ensures { IfOk result (λ t. t ≡ record txn.now { savepoints = in_front_of name.now txn.now.savepoints }) }
{
    let mut copied = copy_txn(alloc, txn)?;
    copied.savepoints = savepoints_before(alloc, name, txn.savepoints.as_slice())?;
    Ok(copied)
}

/// So many first ones of these changes, or all.
fn first_changes(alloc: Global, kept: u64, changes: &[Change]) -> Result<ChangeList, Memory>
    ensures { IfOk result (λ all. all ≡ take kept changes.now) }
{
    let kept = min(kept as usize, changes.len());
    copy_changes(alloc, &changes[..kept])
}

/// The transaction as it was at this savepoint, which has the name.
fn back_to(alloc: Global, name: &[u8], savepoint: Savepoint, txn: &Txn) -> Result<Txn, Memory>
    ensures { IfOk result (λ t. t ≡ record txn.now { changes = take savepoint.kept txn.now.changes; savepoints = in_front_of name.now txn.now.savepoints ++ savepoint ∷ [] }) }
{
    let mut back = before_savepoint(alloc, name, txn)?;
    back.changes = first_changes(alloc, savepoint.kept, txn.changes.as_slice())?;
    back.savepoints.push(savepoint)?;
    Ok(back)
}

/// ROLLBACK TO: 1305; later changes and later savepoints go.
pub fn roll_back_to(alloc: Global, engine: &mut Engine, name: &[u8]) -> Result<Reply, Refused>
    ensures { Acts engine.old engine.new result (rolled_back_to (world_in engine.old) name.now) }
{
    let Some(txn) = &engine.here.txn else {
        return Err(Refused::Sql(1305));
    };
    let savepoint = savepoint_of(alloc, txn, name)?;
    let back = back_to(alloc, name, savepoint, txn)?;
    engine.set_txn(Some(back));
    Ok(Reply::Ok(0))
}

/// RELEASE SAVEPOINT: 1305; the savepoint and later ones go.
pub fn release(alloc: Global, engine: &mut Engine, name: &[u8]) -> Result<Reply, Refused>
    ensures { Acts engine.old engine.new result (released (world_in engine.old) name.now) }
{
    let Some(txn) = &engine.here.txn else {
        return Err(Refused::Sql(1305));
    };
    savepoint_of(alloc, txn, name)?;
    let left = before_savepoint(alloc, name, txn)?;
    let view = engine.view.take();
    engine.here.txn = Some(left);
    engine.view = view;
    Ok(Reply::Ok(0))
}

// ---- sessions

fn is_session(name: &[u8], session: &Session) -> bool
    ensures { result ≡ has_session_name name.now session.now }
{
    is_same_name(session.name.as_slice(), name)
}

fn has_session(name: &[u8], sessions: &[Session]) -> bool
    ensures { result ≡ list_any (has_session_name name.now) sessions.now }
{
    sessions.iter().any(|session| is_session(name, session))
}

/// The session of this name, or a fresh one where there is none.
fn session_of(alloc: Global, name: &[u8], sessions: &[Session]) -> Result<Session, Memory>
    ensures { IfOk result (λ s. s ≡ unwrap_or (find (has_session_name name.now) sessions.now) (fresh_of name.now)) }
{
    for session in sessions {
        if is_session(name, session) {
            return copy_session(alloc, session);
        }
    }
    fresh_session(alloc, name)
}

fn other_sessions(alloc: Global, name: &[u8], sessions: &[Session]) -> Result<SessionList, Memory>
    ensures { IfOk result (λ all. all ≡ filter (λ s. not (has_session_name name.now s)) sessions.now) }
{
    let mut all = SessionList::new(alloc);
    for session in sessions {
        if !is_session(name, session) {
            all.push(copy_session(alloc, session)?)?;
        }
    }
    Ok(all)
}

/// The session of this name among these becomes the current one.
fn turn_to(
    alloc: Global,
    engine: &mut Engine,
    name: &[u8],
    sessions: &[Session],
) -> Result<(), Memory>
    ensures { OnOk result (world_in engine.new ≡ turned_to name.now sessions.now (world_in engine.old)) }
{
    engine.view = None;
    engine.here = session_of(alloc, name, sessions)?;
    engine.others = other_sessions(alloc, name, sessions)?;
    Ok(())
}

fn open_sessions(alloc: Global, engine: &Engine) -> Result<SessionList, Memory>
    ensures { IfOk result (λ all. all ≡ engine.now.here ∷ engine.now.others) }
{
    let others = copy_sessions(alloc, engine.others.as_slice())?;
    in_front(alloc, copy_session(alloc, &engine.here)?, others)
}

/// SESSION: 1040 where it would be the 65th open one, else it is the current one.
pub fn session(alloc: Global, engine: &mut Engine, name: &[u8]) -> Result<Reply, Refused>
    ensures { Acts engine.old engine.new result (session_outcome (world_in engine.old) name.now) }
{
    let open = open_sessions(alloc, engine)?;
    if open.len() >= 64 && !has_session(name, open.as_slice()) {
        return Err(Refused::Sql(1040));
    }
    turn_to(alloc, engine, name, open.as_slice())?;
    Ok(Reply::Ok(0))
}

/// DISCONNECT ends the current session, and `main` is current then.
pub fn disconnect(alloc: Global, engine: &mut Engine) -> Result<Reply, Memory>
    ensures { Gives engine.new result (done (turned_to (codes "main") (world_in engine.old).others (world_in engine.old)) 0) }
{
    let open = copy_sessions(alloc, engine.others.as_slice())?;
    turn_to(alloc, engine, b"main", open.as_slice())?;
    Ok(Reply::Ok(0))
}
