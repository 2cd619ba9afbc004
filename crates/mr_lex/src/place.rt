//! Where a byte of a script stands, and what is told of it.

ghost use Rattle.std.specs.Prelude.{◌≡◌};
ghost use Rattle.mr_lex.specs.Cutting.{plain_next as plain_follows, next_place as place_follows, is_outside as outside};
ghost use Rattle.mr_lex.specs.Resting.{next_blank as blank_follows, is_whole as whole};

use crate::bytes::is_space;

/// What a byte of a script is.
#[derive(Clone, Copy, PartialEq, Eq, Debug, Drop)]
pub enum Split {
    /// A `;` that ends a statement.
    End,
    /// If the script ended here, only white space and whole comments would stand behind the last end.
    Blank,
    /// Anything else.
    Inside,
}

/// Where the next byte stands.
#[derive(Clone, Copy, Drop)]
pub(crate) enum Place {
    Plain,
    /// Behind a `-`.
    Dash,
    /// Behind two or more.
    Dashes,
    /// Behind a `/`.
    Slash,
    /// In a comment to the end of the line.
    Line,
    /// In a comment that `*/` ends.
    Block,
    /// Behind a `*` in it.
    Star,
    /// In these quotes.
    Quoted(u8),
    /// Behind a backslash in them.
    Escaped(u8),
}

fn plain_next(byte: u8) -> Place
    ensures { result ≡ plain_follows byte }
{
    match byte {
        b'#' => Place::Line,
        b'-' => Place::Dash,
        b'/' => Place::Slash,
        b'\'' | b'"' | b'`' => Place::Quoted(byte),
        _ => Place::Plain,
    }
}

fn dashes_next(byte: u8) -> Place
    ensures { result ≡ place_follows Place.Dashes byte }
{
    if byte == b'-' {
        Place::Dashes
    } else if byte == b'\n' {
        Place::Plain
    } else if is_space(byte) {
        Place::Line
    } else {
        plain_next(byte)
    }
}

fn star_next(byte: u8) -> Place
    ensures { result ≡ place_follows Place.Star byte }
{
    if byte == b'/' {
        Place::Plain
    } else if byte == b'*' {
        Place::Star
    } else {
        Place::Block
    }
}

fn quoted_next(quote: u8, byte: u8) -> Place
    ensures { result ≡ place_follows (Place.Quoted quote) byte }
{
    if byte == quote {
        Place::Plain
    } else if byte == b'\\' && (quote == b'\'' || quote == b'"') {
        Place::Escaped(quote)
    } else {
        Place::Quoted(quote)
    }
}

/// The place behind a byte.
pub(crate) fn next_place(place: Place, byte: u8) -> Place
    ensures { result ≡ place_follows place byte }
{
    match place {
        Place::Plain => plain_next(byte),
        Place::Dash => if byte == b'-' {
            Place::Dashes
        } else {
            plain_next(byte)
        },
        Place::Dashes => dashes_next(byte),
        Place::Slash => if byte == b'*' {
            Place::Block
        } else {
            plain_next(byte)
        },
        Place::Line => if byte == b'\n' {
            Place::Plain
        } else {
            Place::Line
        },
        Place::Block => if byte == b'*' {
            Place::Star
        } else {
            Place::Block
        },
        Place::Star => star_next(byte),
        Place::Quoted(quote) => quoted_next(quote, byte),
        Place::Escaped(quote) => Place::Quoted(quote),
    }
}

/// Whether all is blank up to a comment that is open or may begin.
pub(crate) fn next_blank(place: Place, blank: bool, byte: u8) -> bool
    ensures { result ≡ blank_follows place blank byte }
{
    match place {
        Place::Plain => blank && (is_space(byte) || byte == b'#' || byte == b'-' || byte == b'/'),
        Place::Dash => blank && byte == b'-',
        Place::Dashes => blank && is_space(byte),
        Place::Slash => blank && byte == b'*',
        Place::Line | Place::Block | Place::Star => blank,
        Place::Quoted(_) | Place::Escaped(_) => false,
    }
}

/// Whether a byte here is in no quotes and no comment.
pub(crate) fn is_outside(place: Place) -> bool
    ensures { result ≡ outside place }
{
    match place {
        Place::Plain | Place::Dash | Place::Dashes | Place::Slash => true,
        Place::Line | Place::Block | Place::Star | Place::Quoted(_) | Place::Escaped(_) => false,
    }
}

/// Whether what is open here is whole where the script ends.
pub(crate) fn is_whole(place: Place) -> bool
    ensures { result ≡ whole place }
{
    match place {
        Place::Plain | Place::Dashes | Place::Line => true,
        Place::Dash
        | Place::Slash
        | Place::Block
        | Place::Star
        | Place::Quoted(_)
        | Place::Escaped(_) => false,
    }
}
