//! Rows that are expired.

ghost use Rattle.std.specs.Prelude.{◌≡◌, ◌≤◌, ℕ, List};
ghost use Rattle.mr_types.specs.declared.definition.TableDef.{TableDef};
ghost use Rattle.mr_types.specs.declared.row.Change.{Change};
ghost use Rattle.mr_types.specs.declared.row.Row.{Row};
ghost use Rattle.mr_spec.specs.Rows.{visible};
ghost use Rattle.mr_orders.specs.Orders.{IsAscending};
ghost use Rattle.mr_views.specs.Views.{rows_behind};

/// What is visible later is what is visible later of what is visible now: an expired row stays
/// expired.
pub fn visible_later_was_visible()
    ensures { (def : TableDef) (now later : ℕ) (rows : List Row) → now ≤ later → visible def later (visible def now rows) ≡ visible def later rows }
{}

/// Where the visible rows are the same, they are so behind any changes, now and at each later
/// moment: it doesn't matter whether expired rows are still there.
pub fn expired_rows_may_be_gone()
    ensures { (def : TableDef) (now later : ℕ) (rows others : List Row) (changes : List Change) → IsAscending def rows → IsAscending def others → visible def now rows ≡ visible def now others → now ≤ later → visible def later (rows_behind def rows changes) ≡ visible def later (rows_behind def others changes) }
{}
