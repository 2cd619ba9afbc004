//! What pieces are for: laws that callers cite.

ghost use Rattle.mr_pieces.specs.Promises.{PiecesDecideFirst, PiecesComeBack, TextsInOrder};

/// The byte order of pieces is the order of their values, and what follows decides only where the
/// values are the same; so none is a front of another.
pub fn pieces_decide_first()
    ensures { PiecesDecideFirst }
{}

/// What was cut into pieces is read again, a text with its unpack form byte for byte.
pub fn pieces_come_back()
    ensures { PiecesComeBack }
{}

/// The order of texts is total, and is that of texts padded with spaces to one length.
pub fn texts_in_order()
    ensures { TextsInOrder }
{}
