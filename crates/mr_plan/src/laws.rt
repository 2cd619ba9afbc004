//! What plans are for: laws that callers cite.

ghost use Rattle.std.specs.Prelude.{◌≡◌, ◌↔◌, ◌∷◌, ℕ, List, Option, Some, true, slice_get};
ghost use Rattle.mr_types.specs.declared.definition.ColumnDef.{ColumnDef};
ghost use Rattle.mr_types.specs.declared.definition.TableDef.{TableDef};
ghost use Rattle.mr_types.specs.declared.row.Row.{Row};
ghost use Rattle.mr_spec.specs.declared.bound.Bound.{Bound};
ghost use Rattle.mr_plan.specs.Choice.{is_covering, Covers};
ghost use Rattle.mr_plan.specs.Columns.{said};
ghost use Rattle.mr_plan.specs.Firsts.{meets_first};
ghost use Rattle.mr_plan.specs.Keys.{held};

/// What is held of the first columns of a key is said of the first one.
pub fn first_columns_are_held()
    ensures { (def : TableDef) (e : Option Bound) (p : ℕ) (places : List ℕ) (row : Row) (column : ColumnDef) → slice_get def.columns p ≡ Some column → held def e (p ∷ places) row ≡ true → said def p row e ≡ true }
{}

/// A row that meets what a condition says of a column meets the first test in the text that compares
/// this column by `=`, `<`, `<=`, `>`, `>=` or BETWEEN, where the condition is an AND with such a
/// test.
pub fn first_tests_are_met()
    ensures { (def : TableDef) (p : ℕ) (row : Row) (e : Option Bound) → said def p row e ≡ true → meets_first def p row e ≡ true }
{}

/// An index covers exactly where each needed column is in it or in the primary key, and the primary
/// key always.
pub fn covering_is_reaching()
    ensures { (def : TableDef) (index needed : ℕ) → (is_covering def index needed ≡ true) ↔ Covers def index needed }
{}
