//! What keys are for: laws that callers cite.

ghost use Rattle.std.specs.Prelude.{◌++◌, ℕ, List};
ghost use Rattle.mr_types.specs.declared.definition.TableDef.{TableDef};
ghost use Rattle.mr_types.specs.declared.row.Row.{Row};
ghost use Rattle.mr_types.specs.Rows.{IsRowOf};
ghost use Rattle.mr_memcmp.specs.Fitting.{AllFit};
ghost use Rattle.mr_types.specs.declared.kind.ColumnType.{ColumnType};
ghost use Rattle.mr_types.specs.declared.value.Value.{Value};
ghost use Rattle.mr_memcmp.specs.ComeBack.{IsKind, IsTaken, ColumnComesBack, OnlyWrittenIsRead, KeyComesBack};
ghost use Rattle.mr_memcmp.specs.KeyOrder.{KeysInOrder, ColumnsInOrder, KeysInRange};

/// A row of a table has a value that fits for each column of it.
pub fn rows_fit()
    ensures { (def : TableDef) (row : Row) (places : List ℕ) → IsRowOf def row → AllFit def.columns row.fields places }
{}

/// Keys of an index are ordered as their rows, are equal exactly where all values are the same,
/// and none is a proper front of another.
pub fn keys_in_order()
    ensures { (index : ℕ) (def : TableDef) (places : List ℕ) (x y : Row) → IsRowOf def x → IsRowOf def y → KeysInOrder index def places x y }
{}

/// The same of the columns alone, without hidden numbers.
pub fn columns_in_order()
    ensures { (index : ℕ) (def : TableDef) (places : List ℕ) (x y : Row) → AllFit def.columns x.fields places → AllFit def.columns y.fields places → ColumnsInOrder index def places x y }
{}

/// Rows whose first columns are at or above given values, the same as these, or strictly above
/// them, are known by their keys.
pub fn keys_in_range()
    ensures { (index : ℕ) (def : TableDef) (front more : List ℕ) (row given : Row) → IsRowOf def row → AllFit def.columns given.fields front → KeysInRange index def front more row given }
{}

/// A column that was written is read again byte for byte, whatever stands behind it.
pub fn columns_come_back()
    ensures { (column : ColumnType) (value : Value) → IsKind column.kind → IsTaken column value → ColumnComesBack column value }
{}

/// What is read of a column was written of a value that it takes.
pub fn only_columns_are_read()
    ensures { (column : ColumnType) → OnlyWrittenIsRead column }
{}

/// The key of a row is read again with its unpack data: the index number, and then each column.
pub fn keys_come_back()
    ensures { (index : ℕ) (def : TableDef) (row : Row) → IsRowOf def row → KeyComesBack index def row }
{}
