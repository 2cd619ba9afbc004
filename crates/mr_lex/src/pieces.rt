//! Why the pieces that a script comes in make no difference.

ghost use Rattle.mr_lex.specs.Pieces.{PiecesCutAlike};

/// A reader that keeps what its splitter doesn't tell to be blank has the parts of the whole script, wherever the
/// pieces border.
pub fn pieces_cut_alike()
    ensures { PiecesCutAlike }
{}
