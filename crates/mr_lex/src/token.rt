//! A token of a text.

/// What a token is.
#[derive(Clone, Copy, PartialEq, Eq, Debug, Drop)]
pub enum TokenKind {
    /// A letter, `_` or `$`, and letters, digits, `_` and `$` behind it. Keywords are words.
    Word,
    /// A name of 1 to 64 bytes in backticks.
    QuotedName,
    /// Decimal digits of a value up to 2^127 - 1.
    Number,
    /// A text in `'` or `"`.
    Text,
    /// `x'..'`, `0x..` or `_binary '..'`.
    Bytes,
    /// One of `( ) , = < > <= >= <> != + - * .`
    Sign,
}

/// A token: its bytes as they stand in the text, quotes and escapes among them, and its span from `start` to before
/// `end`, in bytes of the text.
#[derive(Clone, Copy, PartialEq, Eq, Debug, Drop)]
pub struct Token<'a> {
    pub kind: TokenKind,
    pub slice: &'a [u8],
    pub start: usize,
    pub end: usize,
}

/// The place of the text, in bytes, at which no token begins.
#[derive(Clone, Copy, PartialEq, Eq, Debug, Drop)]
pub struct BadToken(pub usize);
