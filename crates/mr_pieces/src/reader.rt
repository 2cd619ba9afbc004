//! Reading pieces back: where they end, or which piece breaks a rule.

ghost use Rattle.std.specs.Prelude.{◌≡◌, ◌==◌, length, drop, true, false};
ghost use Rattle.std.specs.List.{list_all};
ghost use Rattle.mr_pieces.specs.Reading.{TakesBytes, TakesText, bytes_read, is_last, is_text_byte, is_piece, is_blank, wanted_mark, text_read, Heads, Splits};

use crate::collation::Collation;
use crate::writer::mark_of;

/// How many bytes are left from the first byte of the field that breaks its rule or isn't whole.
pub type BytesLeft = usize;

fn is_zero(bytes: &[u8]) -> bool
    ensures { result ≡ list_all (λ b. b == 0) bytes.now }
{
    bytes.iter().all(|b| *b == 0)
}

fn is_last_piece(first: bool, piece: &[u8], count: u8) -> bool
    requires { length piece.now ≡ 8 }
    ensures { result ≡ is_last first piece.now count }
{
    count <= 8 && (first || count > 0) && is_zero(&piece[count as usize..])
}

/// Whether the first piece is the last one; or how many bytes are left at the first offence.
fn bytes_head(first: bool, rest: &[u8]) -> Result<bool, BytesLeft>
    ensures { Heads rest.now (bytes_read false (drop 9 rest.now)) result (bytes_read first rest.now) }
{
    if rest.len() < 9 {
        return Err(rest.len());
    }
    let count = rest[8];
    if count == 9 {
        return Ok(false);
    }
    if is_last_piece(first, &rest[..8], count) {
        return Ok(true);
    }
    Err(rest.len())
}

fn cut_bytes(key: &[u8]) -> Result<(&[u8], &[u8]), BytesLeft>
    ensures { Splits key.now result (bytes_read true key.now) }
{
    let mut at = 0;
    loop {
        if bytes_head(at == 0, &key[at..])? {
            return Ok(key.split_at(at + 9));
        }
        at += 9;
    }
}

fn is_text_byte(collation: Collation, b: u8) -> bool
    ensures { result ≡ is_text_byte collation b }
{
    match collation {
        Collation::Bin => b < 128,
        Collation::Ci => b < 128 && !(b >= 97 && b <= 122),
    }
}

fn are_text_bytes(collation: Collation, piece: &[u8]) -> bool
    ensures { result ≡ list_all (is_text_byte collation) piece.now }
{
    piece.iter().all(|b| is_text_byte(collation, *b))
}

/// Whether a piece is in order by itself.
fn is_piece(collation: Collation, piece: &[u8], mark: u8) -> bool
    ensures { result ≡ is_piece collation piece.now mark }
{
    mark > 0 && mark < 4 && are_text_bytes(collation, piece)
}

fn is_blank(piece: &[u8]) -> bool
    ensures { result ≡ is_blank piece.now }
{
    piece.iter().all(|b| *b == b' ')
}

/// The mark that the next piece wants, where it is whole and in order by itself.
fn wanted_of(collation: Collation, rest: &[u8]) -> Option<u8>
    ensures { result ≡ wanted_mark collation rest.now }
{
    if rest.len() < 9 {
        return None;
    }
    let piece = &rest[..8];
    let mark = rest[8];
    if !is_piece(collation, piece, mark) {
        return None;
    }
    if is_blank(piece) {
        return Some(mark);
    }
    Some(mark_of(piece))
}

/// Whether the first piece is the last one; or how many bytes are left at the first offence.
fn text_head(collation: Collation, rest: &[u8]) -> Result<bool, BytesLeft>
    ensures { Heads rest.now (text_read collation (drop 9 rest.now)) result (text_read collation rest.now) }
{
    if rest.len() < 9 {
        return Err(rest.len());
    }
    let mark = rest[8];
    if !is_piece(collation, &rest[..8], mark) {
        return Err(rest.len());
    }
    if mark == 2 {
        return Ok(true);
    }
    match wanted_of(collation, &rest[9..]) {
        None => Ok(false),
        Some(wanted) => {
            if mark == wanted {
                Ok(false)
            } else {
                Err(rest.len())
            }
        }
    }
}

fn cut_text(collation: Collation, key: &[u8]) -> Result<(&[u8], &[u8]), BytesLeft>
    ensures { Splits key.now result (text_read collation key.now) }
{
    let mut at = 0;
    loop {
        if text_head(collation, &key[at..])? {
            return Ok(key.split_at(at + 9));
        }
        at += 9;
    }
}

/// The pieces of bytes at the front, and what stands behind them.
pub fn split_bytes(key: &[u8]) -> Result<(&[u8], &[u8]), BytesLeft>
    ensures { TakesBytes key.now result }
{
    cut_bytes(key)
}

/// The pieces of a text at the front, and what stands behind them.
pub fn split_text(collation: Collation, key: &[u8]) -> Result<(&[u8], &[u8]), BytesLeft>
    ensures { TakesText collation key.now result }
{
    cut_text(collation, key)
}
