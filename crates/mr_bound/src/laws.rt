//! What bound statements have to do with the statements that were written.

ghost use Rattle.std.specs.Prelude.{◌≡◌, List, Option, Ok};
ghost use Rattle.mr_types.specs.declared.definition.TableDef.{TableDef};
ghost use Rattle.mr_types.specs.declared.expr.Expr.{Expr};
ghost use Rattle.mr_types.specs.declared.row.Row.{Row};
ghost use Rattle.mr_types.specs.declared.statement.Select.{Select};
ghost use Rattle.mr_types.specs.declared.statement.SetItem.{SetItem};
ghost use Rattle.mr_types.specs.declared.value.Value.{Value};
ghost use Rattle.mr_types.specs.Refusals.{in_turn};
ghost use Rattle.mr_types.specs.Rows.{IsRowOf};
ghost use Rattle.mr_spec.specs.Truth.{where_of};
ghost use Rattle.mr_spec.specs.Select.{select_tests};
ghost use Rattle.mr_spec.specs.Setting.{with_item, update_tests};
ghost use Rattle.mr_orders.specs.Orders.{selected_of};
ghost use Rattle.mr_bound.specs.declared.bound.BoundSelect.{BoundSelect};
ghost use Rattle.mr_bound.specs.declared.bound.BoundUpdate.{BoundUpdate};
ghost use Rattle.mr_bound.specs.BoundSelects.{bind_select, keeps, selected_at};
ghost use Rattle.mr_bound.specs.BoundRefusals.{behind_forced, refusal_of};
ghost use Rattle.mr_bound.specs.BoundUpdates.{bind_update, with_set};
ghost use Rattle.mr_bound.specs.Stamps.{HasStamp};

/// A bound SELECT gives of rows in any order what the SELECT that was written gives of them.
pub fn bound_selects_agree()
    ensures { (def : TableDef) (s : Select) (b : BoundSelect) (rows : List Row) → bind_select def s ≡ Ok b → selected_at def b rows ≡ selected_of def s (where_of s.condition) rows }
{}

/// A SELECT is bound exactly where it passes its tests behind that of FORCE INDEX, and it is refused
/// by the first that it doesn't pass.
pub fn select_refusals_agree()
    ensures { (def : TableDef) (s : Select) → select_tests def s (where_of s.condition) ≡ behind_forced def s (refusal_of (bind_select def s)) }
{}

/// The bound assignments, one after the other, make of a row's fields what those that were written
/// make of them.
pub fn bound_assignments_agree()
    ensures { (def : TableDef) (set : List SetItem) (c : Option Expr) (u : BoundUpdate) (fields : List Value) → bind_update def set c ≡ Ok u → in_turn (with_set def) fields u.set ≡ in_turn (with_item def) fields set }
{}

/// The bound condition of an UPDATE chooses the rows that the written one chooses.
pub fn bound_updates_choose_the_same_rows()
    ensures { (def : TableDef) (set : List SetItem) (c : Option Expr) (u : BoundUpdate) (row : Row) → bind_update def set c ≡ Ok u → keeps def u.condition row ≡ (where_of c).keeps def row }
{}

/// An UPDATE is bound exactly where it passes its tests, and it is refused by the first that it
/// doesn't pass.
pub fn update_refusals_agree()
    ensures { (def : TableDef) (set : List SetItem) (c : Option Expr) → update_tests def set (where_of c) ≡ refusal_of (bind_update def set c) }
{}

/// The TTL column of a row of a table has a number of at most 64 bits.
pub fn rows_of_tables_have_stamps()
    ensures { (def : TableDef) (row : Row) → IsRowOf def row → HasStamp def row }
{}
