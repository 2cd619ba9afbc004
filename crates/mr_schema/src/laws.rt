//! What follows from the definitions, for callers to cite.

ghost use Rattle.std.specs.Prelude.{◌≡◌, ◌≤◌, ◌++◌, ◌∷◌, [], true, ℕ, List, Ok, length};
ghost use Rattle.mr_types.specs.declared.definition.IndexDef.{IndexDef};
ghost use Rattle.mr_types.specs.declared.definition.TableDef.{TableDef};
ghost use Rattle.mr_types.specs.declared.text.KeyText.{KeyText};
ghost use Rattle.mr_types.specs.declared.text.TableText.{TableText};
ghost use Rattle.mr_types.specs.declared.row.Row.{Row};
ghost use Rattle.mr_types.specs.Rows.{IsRowOf};
ghost use Rattle.mr_types.specs.Grammatical.{is_table_text, is_secondary_text};
ghost use Rattle.mr_spec.specs.Checks.{check as checked, check_key as checked_beside};
ghost use Rattle.mr_fields.specs.Fitting.{RowFits};
ghost use Rattle.mr_types.specs.declared.row.Commit.{Commit};
ghost use Rattle.mr_schema.specs.DefinitionFitting.{KeyFits, DefinitionFits};
ghost use Rattle.mr_schema.specs.DefinitionForm.{definition_in};
ghost use Rattle.mr_schema.specs.Few.{FewInBody, FewColumns};

/// Each definition and each key that the checks give has a form as bytes, so what is written for it is
/// read as it was.
pub fn checked_definitions_fit()
    ensures definitions { (text : TableText) (def : TableDef) → is_table_text text ≡ true → checked text ≡ Ok def → DefinitionFits def }
    ensures keys { (def : TableDef) (taken : List (List ℕ)) (text : KeyText) (key : IndexDef) → is_secondary_text text ≡ true → checked_beside def taken text ≡ Ok key → KeyFits (length def.columns) key }
{}

/// A definition that was read has at most 255 columns, since their count has one byte.
pub fn read_definitions_are_few()
    ensures { (bytes rest : List ℕ) (def : TableDef) → definition_in bytes ≡ Ok (def, rest) → length def.columns ≤ 255 }
{}

/// Commits that make tables of few columns, and one more.
pub fn few_columns_and_one_more()
    ensures { (commits : List Commit) (c : Commit) → FewColumns commits → FewInBody c.body → FewColumns (commits ++ c ∷ []) }
{}

/// Each row of a table whose definition has a form as bytes has one too.
pub fn rows_of_tables_fit()
    ensures { (def : TableDef) (row : Row) → DefinitionFits def → IsRowOf def row → RowFits row }
{}
