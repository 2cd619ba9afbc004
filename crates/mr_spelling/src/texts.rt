//! Statements from texts.

ghost use Rattle.std.specs.Prelude.{◌≡◌, ℕ, true, List, Some};
ghost use Rattle.mr_types.specs.declared.statement.Statement.{Statement};
ghost use Rattle.mr_spec.specs.Grammar.{statement_of};
ghost use Rattle.mr_spelling.specs.Statements.{IsSpellable, spelled_statement};
ghost use Rattle.mr_spelling.specs.Texts.{Written, Write, is_spaced, text_of};
ghost use Rattle.mr_spelling.specs.Canonical.{has_plain_engine, text_of_statement};

/// A statement is read from each text of tokens that spell it with white space between them.
pub fn texts_are_read()
    ensures { (s : Statement) (ws : List Written) (last : List ℕ) → IsSpellable s → Write ws (spelled_statement s) → is_spaced ws last ≡ true → statement_of (text_of ws last) ≡ Some s }
{}

/// Each statement has a text of its own, from which it is read, where the word behind ENGINE is one
/// that a text can have.
pub fn each_statement_has_a_text()
    ensures { (s : Statement) → IsSpellable s → has_plain_engine s ≡ true → statement_of (text_of_statement s) ≡ Some s }
{}
