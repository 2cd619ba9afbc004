//! What entries are for: laws that callers cite.

ghost use Rattle.std.specs.Prelude.{◌<◌, ◌^◌, ℕ, suc, List, slice_index_or};
ghost use Rattle.mr_types.specs.declared.definition.TableDef.{TableDef};
ghost use Rattle.mr_types.specs.declared.row.Row.{Row};
ghost use Rattle.mr_types.specs.Rows.{IsRowOf};
ghost use Rattle.mr_rowval.specs.Promises.{HasKinds};
ghost use Rattle.mr_entry.specs.Held.{HoldsRow};
ghost use Rattle.mr_entry.specs.Primary.{LeadsToRow};
ghost use Rattle.mr_entry.specs.Promises.{IsCovering, HasColumns, EntryComesBack, OnlyEntriesAreRead};

/// The entry of a row, in an index that covers all columns, is read again as that row.
pub fn entries_come_back()
    ensures { (def : TableDef) (numbers : List ℕ) (row : Row) (index : ℕ) → slice_index_or numbers index 0 < 2 ^ 32 → HasKinds def.columns → IsRowOf def row → IsCovering def index → EntryComesBack def numbers row index }
{}

/// Only the entry of a row of the table is read as one. No column stands twice in the key, and
/// those of the primary key are NOT NULL.
pub fn only_entries_are_read()
    ensures { (def : TableDef) (index : ℕ) → HasColumns def index → IsCovering def index → OnlyEntriesAreRead def index }
{}

/// The entry of a row in a secondary key is read as one, and holds the hidden number, the stamp,
/// and each column of its key byte for byte.
pub fn entries_are_held()
    ensures { (def : TableDef) (numbers : List ℕ) (row : Row) (i : ℕ) → slice_index_or numbers (suc i) 0 < 2 ^ 32 → HasKinds def.columns → IsRowOf def row → HoldsRow def numbers row (suc i) }
{}

/// The primary key that is made from the entry of a row in a secondary key is the row's own, byte
/// for byte, under any number of that index.
pub fn entries_lead_to_rows()
    ensures { (def : TableDef) (numbers : List ℕ) (row : Row) (i : ℕ) → slice_index_or numbers (suc i) 0 < 2 ^ 32 → HasKinds def.columns → IsRowOf def row → LeadsToRow def numbers row (suc i) }
{}
