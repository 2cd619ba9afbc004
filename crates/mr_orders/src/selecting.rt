//! What SELECT gives of rows in any order.

ghost use Rattle.std.specs.Prelude.{◌≡◌, ℕ, List, Option, Some};
ghost use Rattle.std.specs.List.Sorted.{IsPermutation};
ghost use Rattle.mr_types.specs.declared.definition.TableDef.{TableDef};
ghost use Rattle.mr_types.specs.declared.row.Row.{Row};
ghost use Rattle.mr_types.specs.declared.row.Commit.{Commit};
ghost use Rattle.mr_types.specs.declared.statement.OrderItem.{OrderItem};
ghost use Rattle.mr_types.specs.declared.statement.Select.{Select};
ghost use Rattle.mr_spec.specs.declared.world.Table.{Table};
ghost use Rattle.mr_spec.specs.declared.world.Txn.{Txn};
ghost use Rattle.mr_spec.specs.Database.{table_of};
ghost use Rattle.mr_spec.specs.Rows.{visible};
ghost use Rattle.mr_spec.specs.Select.{order_cmp, selected, sorted};
ghost use Rattle.mr_spec.specs.Truth.{Where};
ghost use Rattle.mr_spec.specs.World.{view_of};
ghost use Rattle.mr_orders.specs.Orders.{HasKeysOnce, by_key, reply_cmp, selected_of};

/// The same rows, without a primary key twice, give the same selection in whatever order they come.
pub fn rows_come_in_any_order()
    ensures { (def : TableDef) (s : Select) (c : Where) (rows others : List Row) → HasKeysOnce def rows → IsPermutation rows others → selected_of def s c rows ≡ selected_of def s c others }
{}

/// Rows that tie by ORDER BY come in the order of their primary keys, also behind DESC: sorting by
/// both at once gives the same.
pub fn ties_go_by_the_primary_key()
    ensures { (def : TableDef) (order : List OrderItem) (rows : List Row) → HasKeysOnce def rows → sorted (order_cmp def order) (by_key def rows) ≡ sorted (reply_cmp def order) rows }
{}

/// What SELECT gives of a table in a session's view is what it gives of the visible rows in any
/// order.
pub fn selections_of_views_are_of_any_order()
    ensures { (commits : List Commit) (txn : Option Txn) (name : List ℕ) (t : Table) (moment : ℕ) (s : Select) (c : Where) (rows : List Row) → table_of name (view_of commits txn) ≡ Some t → IsPermutation rows (visible t.def moment t.rows) → selected t.def s c (visible t.def moment t.rows) ≡ selected_of t.def s c rows }
{}
