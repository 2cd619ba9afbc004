//! What row values are for: laws that callers cite.

ghost use Rattle.std.specs.Prelude.{◌<◌, ◌^◌, ℕ};
ghost use Rattle.mr_types.specs.declared.definition.TableDef.{TableDef};
ghost use Rattle.mr_types.specs.declared.row.Row.{Row};
ghost use Rattle.mr_types.specs.Rows.{IsRowOf};
ghost use Rattle.mr_rowval.specs.Promises.{HasKinds, HasKey, RowComesBack, OnlyEntriesAreRead};

/// A row's entry is decoded as that row, byte for byte: letter case and spaces at the end of texts
/// included.
pub fn rows_come_back()
    ensures { (index : ℕ) (def : TableDef) (row : Row) → index < 2 ^ 32 → HasKinds def.columns → IsRowOf def row → RowComesBack index def row }
{}

/// Only the entry of a row of the table is decoded. The columns of its primary key are NOT NULL,
/// and none stands there twice.
pub fn only_rows_are_read()
    ensures { (def : TableDef) → HasKey def → OnlyEntriesAreRead def }
{}
