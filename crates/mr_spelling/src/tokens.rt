//! Statements from tokens.

ghost use Rattle.std.specs.Prelude.{◌≡◌, List, [], Some};
ghost use Rattle.mr_lex.specs.Reading.{Lexeme};
ghost use Rattle.mr_types.specs.declared.statement.Statement.{Statement};
ghost use Rattle.mr_spec.specs.Grammar.{whole_statement};
ghost use Rattle.mr_spelling.specs.Parts.{Spell};
ghost use Rattle.mr_spelling.specs.Statements.{IsSpellable, spelled_statement};

/// A statement is read from whatever tokens spell it, and none of them is left: each statement in
/// order whose conditions nest no deeper than the grammar does, whatever the case of its keywords,
/// and however its names, numbers, texts and bytes are written.
pub fn spellings_are_read()
    ensures { (s : Statement) (ts : List Lexeme) → IsSpellable s → Spell ts (spelled_statement s) → whole_statement ts ≡ Some (s, []) }
{}
