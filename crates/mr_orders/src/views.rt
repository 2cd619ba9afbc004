//! The order of the rows of tables.

ghost use Rattle.std.specs.Prelude.{List, Option};
ghost use Rattle.mr_types.specs.declared.row.Commit.{Commit};
ghost use Rattle.mr_spec.specs.declared.world.Txn.{Txn};
ghost use Rattle.mr_spec.specs.World.{view_of};
ghost use Rattle.mr_orders.specs.Orders.{AreAscending};

/// The rows of each table that a session sees, its own changes among them, ascend by the primary key
/// or the hidden number, so none has it twice.
pub fn tables_ascend()
    ensures { (commits : List Commit) (txn : Option Txn) → AreAscending (view_of commits txn) }
{}
