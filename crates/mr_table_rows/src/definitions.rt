//! The columns that hold stamps.

ghost use Rattle.std.specs.Prelude.{List};
ghost use Rattle.std.specs.List.{AllByRecursion};
ghost use Rattle.mr_types.specs.declared.definition.TableDef.{TableDef};
ghost use Rattle.mr_types.specs.declared.row.Commit.{Commit};
ghost use Rattle.mr_spec.specs.Database.{replay};
ghost use Rattle.mr_spec.specs.Lawful.{IsChecked, IsLawful};
ghost use Rattle.mr_table_rows.specs.StampColumns.{HasStampColumn};

/// A definition that passes the checks has a column for its stamps where its TTL names one.
pub fn checked_definitions_have_stamp_columns()
    ensures { (def : TableDef) → IsChecked def → HasStampColumn def }
{}

/// So has each table that lawful commits make.
pub fn lawful_tables_have_stamp_columns()
    ensures { (commits : List Commit) → IsLawful commits → AllByRecursion (λ t. HasStampColumn t.def) (replay commits) }
{}
