//! Laws that join keys, rows and entries to what the SQL profile says of rows and definitions.
#![tactic(auto)]

ghost use Rattle.std.specs.Prelude.{◌≡◌, ◌≤◌, ◌+◌, ◌↔◌, ℕ, length, true, List, Ok, Option};
ghost use Rattle.std.specs.List.{AllByRecursion};
ghost use Rattle.mr_types.specs.declared.definition.TableDef.{TableDef};
ghost use Rattle.mr_types.specs.declared.row.Row.{Row};
ghost use Rattle.mr_types.specs.declared.text.TableText.{TableText};
ghost use Rattle.mr_types.specs.Rows.{IsRowOf};
ghost use Rattle.mr_memcmp.specs.ComeBack.{AreBytes};
ghost use Rattle.mr_memcmp.specs.Keys.{key_bytes_of};
ghost use Rattle.mr_memcmp.specs.Parts.{row_key};
ghost use Rattle.mr_entry.specs.Entry.{entry_places, entry_value};
ghost use Rattle.mr_spec.specs.Checks.{check};
ghost use Rattle.mr_spec.specs.Weight.{row_size};
ghost use Rattle.mr_spec.specs.Lawful.{IsChecked, is_row_of};
ghost use Rattle.mr_table_rows.specs.StampColumns.{HasNumbersOf64Bits};
ghost use Rattle.mr_row_laws.specs.PrimaryOrder.{PrimaryKeysInOrder};
ghost use Rattle.mr_row_laws.specs.Codable.{IsCodable};

/// The primary keys of rows, as bytes, stand in the order that the profile gives the rows, and two
/// are the same bytes exactly where the profile calls them the same primary key.
pub fn primary_keys_in_order()
    ensures { (index : ℕ) (def : TableDef) (x y : Row) → IsRowOf def x → IsRowOf def y → PrimaryKeysInOrder index def x y }
{}

/// A definition that passes the checks has what the codecs of rows and entries ask of one.
pub fn checked_definitions_are_codable()
    ensures { (text : TableText) (def : TableDef) → check text ≡ Ok def → IsCodable def }
{}

/// A row that lawful commits may write into a table of a checked definition is one that the codecs
/// take, where its hidden number, and its stamp where no column holds it, have 64 bits.
pub fn lawful_rows_are_codable()
    ensures { (def : TableDef) (row : Row) → IsChecked def → is_row_of def row ≡ true → HasNumbersOf64Bits def row → IsCodable def × IsRowOf def row }
{}

/// The key of a row, behind the index number or without it, is bytes, whatever its columns: what
/// laws on ranges of keys ask of it.
pub fn row_keys_are_bytes()
    ensures { (index : Option ℕ) (def : TableDef) (places : List ℕ) (row : Row) → IsRowOf def row → AreBytes (row_key index def places row) }
{}

/// A key of a row in a table of a checked definition has at most 8,192 bytes: that of each index,
/// the columns of the primary key behind its own.
pub fn keys_are_short()
    ensures { (text : TableText) (def : TableDef) (row : Row) (number index : ℕ) → check text ≡ Ok def → IsRowOf def row → length (key_bytes_of number def (entry_places def index) row) ≤ 8192 }
{}

/// The value of a row's entry in any index of a checked definition has at most 2,048 bytes more than
/// the row's form.
pub fn entries_are_short()
    ensures { (text : TableText) (def : TableDef) (row : Row) (index : ℕ) → check text ≡ Ok def → IsRowOf def row → length (entry_value def row index) ≤ 2048 + row_size row }
{}
