//! Rows of a table.

ghost use Rattle.std.specs.Prelude.{◌≡◌, true};
ghost use Rattle.mr_types.specs.declared.definition.TableDef.{TableDef};
ghost use Rattle.mr_types.specs.declared.row.Row.{Row};
ghost use Rattle.mr_types.specs.Rows.{IsRowOf};
ghost use Rattle.mr_spec.specs.Lawful.{is_row_of};
ghost use Rattle.mr_table_rows.specs.StampColumns.{HasStampColumn, RowsAreOne};

/// A row that has entries is one that lawful commits may write, whatever the definition.
pub fn rows_with_entries_are_lawful()
    ensures { (def : TableDef) (row : Row) → IsRowOf def row → is_row_of def row ≡ true }
{}

/// Where the TTL's column may hold stamps, a row has entries exactly where lawful commits may write
/// it, and its hidden number, and its stamp where no column holds it, have 64 bits.
pub fn rows_are_one()
    ensures { (def : TableDef) (row : Row) → HasStampColumn def → RowsAreOne def row }
{}
