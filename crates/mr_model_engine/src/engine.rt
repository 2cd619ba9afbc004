//! The engine: commits, sessions, building indexes, hidden numbers and the moment, and how they
//! change.

ghost use Rattle.std.specs.Prelude.{◌≡◌, ◌∷◌, [], codes, OnOk, IfOk};
ghost use Rattle.std.specs.Option.{option_map, ForSome};
ghost use Rattle.mr_spec.specs.Database.{replay as replay_of, with_changes as changes_done};
ghost use Rattle.mr_spec.specs.World.{fresh as fresh_of, using_table, view_of};
ghost use Rattle.mr_orders.specs.Orders.{AreAscending};
ghost use Rattle.mr_model_engine.specs.Kept.{IsKept};

use crate::numbers::set_among;
use mr_base::{Blob, Memory};
use mr_model_rows::{in_front, with_body, with_changes};
use mr_spec::{Session, SessionList, Table, TableList, Txn};
use mr_types::{Change, ChangeList, Commit, CommitBody, IndexDef};
use sqlite_items::Items;
use std::alloc::Global;
use std::mem;

/// That a table has this building index, or none.
#[derive(Drop)]
pub struct Building {
    pub table: Blob,
    pub key: Option<IndexDef>,
}

/// A table's next hidden number.
#[derive(Drop)]
pub struct NextNumber {
    pub table: Blob,
    pub number: u64,
}

/// All that statements look at and change. Of the entries of `building` and `numbers` a table's
/// first one tells. The tables are those that the commits make; there are none where memory ran out
/// while they changed. The view is what the current session's transaction sees, where it is kept.
#[derive(Drop)]
pub struct Engine {
    pub commits: Items<Commit>,
    pub tables: Option<TableList>,
    pub here: Session,
    pub others: SessionList,
    pub building: Items<Building>,
    pub numbers: Items<NextNumber>,
    pub moment: u64,
    pub view: Option<TableList>,
    pub ghost current: { IsKept tables (replay_of commits) },
    pub ghost seen: { IsKept view (view_of commits here.txn) },
}

/// A session that was just made.
pub fn fresh_session(alloc: Global, name: &[u8]) -> Result<Session, Memory>
    ensures { IfOk result (λ s. s ≡ fresh_of name.now) }
{
    Ok(Session {
        name: Blob::from_slice(alloc, name)?,
        txn: None,
    })
}

impl Engine {
    ghost use Rattle.mr_spec.specs.World.{with_txn, with_commit, with_rows as rows_kept, committed, rolled_back, keeping, entered, with_number, with_building};
    ghost use Rattle.mr_model_engine.specs.Worlds.{world_in};

    /// The current session has this transaction, or none.
    pub fn set_txn(&mut self, txn: Option<Txn>)
        ensures { world_in self.new ≡ with_txn txn (world_in self.old) }
    {
        self.view = None;
        self.here.txn = txn;
    }

    /// The tables that the commits make. Where memory ran out while they changed, there are none.
    pub fn tables(&self) -> Result<&[Table], Memory>
        ensures { IfOk result (λ all. all.now ≡ replay_of self.now.commits) }
    {
        match &self.tables {
            Some(tables) => Ok(tables.as_slice()),
            None => Err(Memory),
        }
    }

    /// A commit more, at the engine's moment, and what it makes of the tables.
    #[tactic(auto, using(crate::proofs::Current::replay_more, crate::proofs::Current::replay_ascends))]
    pub fn commit(&mut self, alloc: Global, body: CommitBody) -> Result<(), Memory>
        ensures { OnOk result (world_in self.new ≡ with_commit body (world_in self.old)) }
    {
        self.view = None;
        let Some(before) = self.tables.take() else {
            return Err(Memory);
        };
        let tables = with_body(alloc, before, &body)?;
        self.commits.push(Commit {
            moment: self.moment,
            body,
        })?;
        self.tables = Some(tables);
        Ok(())
    }

    /// A commit of these changes; no change is no commit.
    pub fn commit_rows(&mut self, alloc: Global, changes: ChangeList) -> Result<(), Memory>
        ensures { OnOk result (world_in self.new ≡ rows_kept changes (world_in self.old)) }
    {
        if changes.is_empty() {
            return Ok(());
        }
        self.commit(alloc, CommitBody::Rows(changes))
    }

    /// The current transaction, if there is one, is committed.
    pub fn commit_txn(&mut self, alloc: Global) -> Result<(), Memory>
        ensures { OnOk result (world_in self.new ≡ committed (world_in self.old)) }
    {
        self.view = None;
        match self.here.txn.take() {
            None => Ok(()),
            Some(txn) => self.commit_rows(alloc, txn.changes),
        }
    }

    /// And rolled back.
    pub fn roll_back(&mut self)
        ensures { world_in self.new ≡ rolled_back (world_in self.old) }
    {
        self.set_txn(None);
    }

    /// The changes of a statement: of the transaction, or a commit by themselves.
    pub fn keep(&mut self, alloc: Global, changes: ChangeList) -> Result<(), Memory>
        ensures { OnOk result (world_in self.new ≡ keeping changes (world_in self.old)) }
    {
        let view = self.view.take();
        match self.here.txn.take() {
            None => self.commit_rows(alloc, changes),
            Some(mut txn) => {
                let view = changed_view(alloc, view, changes.as_slice())?;
                txn.changes.append(changes)?;
                self.here.txn = Some(txn);
                self.view = view;
                Ok(())
            }
        }
    }

    /// The table's next hidden number.
    pub fn set_number(&mut self, alloc: Global, table: &[u8], number: u64) -> Result<(), Memory>
        ensures { OnOk result (world_in self.new ≡ with_number table.now number (world_in self.old)) }
    {
        set_among(alloc, &mut self.numbers, table, number)
    }

    /// The table's building index.
    pub fn set_building(
        &mut self,
        alloc: Global,
        table: &[u8],
        key: Option<IndexDef>,
    ) -> Result<(), Memory>
        ensures world { OnOk result (world_in self.new ≡ with_building table.now key (world_in self.old)) }
        ensures entry { OnOk result (self.new ≡ record self.old { building = record { table = table.now; key = key } ∷ self.old.building }) }
    {
        let table = Blob::from_slice(alloc, table)?;
        let others = mem::replace(&mut self.building, Items::new(alloc));
        self.building = in_front(alloc, Building { table, key }, others)?;
        Ok(())
    }

    /// The current session has used the table, and its snapshot is fixed.
    pub fn enter(&mut self, alloc: Global, table: &[u8]) -> Result<(), Memory>
        ensures { OnOk result (world_in self.new ≡ entered table.now (world_in self.old)) }
    {
        let commits = self.commits.len() as u64;
        let view = self.view.take();
        match self.here.txn.take() {
            None => Ok(()),
            Some(txn) => {
                self.here.txn = Some(using(alloc, table, commits, txn)?);
                self.view = view;
                Ok(())
            }
        }
    }
}

/// A view after these changes, where it is kept.
fn changed_view(
    alloc: Global,
    view: Option<TableList>,
    changes: &[Change],
) -> Result<Option<TableList>, Memory>
    requires rising { ForSome view AreAscending }
    ensures { IfOk result (λ after. after ≡ option_map (λ tables. changes_done tables changes.now) view) }
{
    match view {
        None => Ok(None),
        Some(tables) => Ok(Some(with_changes(alloc, tables, changes)?)),
    }
}

/// The transaction has used the table, and its snapshot is fixed, at the latest, at this number of
/// commits.
fn using(alloc: Global, table: &[u8], commits: u64, txn: Txn) -> Result<Txn, Memory>
    ensures { IfOk result (λ t. t ≡ using_table table.now commits txn) }
{
    let Txn {
        snapshot,
        changes,
        savepoints,
        used,
    } = txn;
    Ok(Txn {
        snapshot: Some(snapshot.unwrap_or(commits)),
        changes,
        savepoints,
        used: in_front(alloc, Blob::from_slice(alloc, table)?, used)?,
    })
}
