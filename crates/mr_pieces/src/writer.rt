//! Cutting bytes and texts into pieces.

ghost use Rattle.std.specs.Prelude.{◌≡◌, ◌≤◌, ◌++◌, length, take, drop, map, replicate, OnOk};
ghost use Rattle.std.specs.List.{prefix_len};
ghost use Rattle.mr_lanes.specs.Kernels.{upper, is_space};
ghost use Rattle.mr_pieces.specs.Pieces.{bytes_pieces, text_from, text_pieces, trimmed, mark};

use crate::collation::Collation;
use mr_lanes::{fold_upper, trailing_spaces};
use std::alloc::AllocError;

fn push_many(out: &mut Vec<u8>, count: usize, byte: u8) -> Result<(), AllocError>
    ensures { OnOk result (out.new.items ≡ out.old.items ++ replicate count byte) }
{
    for _ in 0..count {
        out.push(byte)?;
    }
    Ok(())
}

/// Adds the pieces of bytes with their counts.
pub fn push_bytes(out: &mut Vec<u8>, bytes: &[u8]) -> Result<(), AllocError>
    ensures { OnOk result (out.new.items ≡ out.old.items ++ bytes_pieces bytes.now) }
{
    let mut rest = bytes;
    while rest.len() > 8 {
        let (piece, after) = rest.split_at(8);
        out.extend_from_slice(piece)?;
        out.push(9)?;
        rest = after;
    }
    let count = rest.len();
    out.extend_from_slice(rest)?;
    push_many(out, 8 - count, 0)?;
    out.push(count as u8)?;
    Ok(())
}

/// How what follows a piece compares with spaces.
pub fn mark_of(rest: &[u8]) -> u8
    ensures { result ≡ mark rest.now }
{
    for b in rest {
        if *b < b' ' {
            return 1;
        }
        if *b > b' ' {
            return 3;
        }
    }
    2
}

/// How many spaces a text begins with, where it is known of the first `known` bytes: these are not
/// looked at again.
fn spaces_in_front(text: &[u8], known: usize) -> usize
    requires { known ≤ prefix_len is_space text.now }
    ensures { result ≡ prefix_len is_space text.now }
{
    let mut count = known;
    while count < text.len() && text[count] == b' ' {
        count += 1;
    }
    count
}

/// As `mark_of`, of what begins with so many spaces: it looks at the byte behind them alone.
fn mark_behind(rest: &[u8], spaces: usize) -> u8
    requires { spaces ≡ prefix_len is_space rest.now }
    ensures { result ≡ mark rest.now }
{
    if spaces >= rest.len() {
        return 2;
    }
    if rest[spaces] < b' ' { 1 } else { 3 }
}

/// Adds the pieces of a text that ends in no space. Each byte is looked at once for the marks,
/// however many spaces there are.
fn push_pieces(out: &mut Vec<u8>, text: &[u8]) -> Result<(), AllocError>
    ensures { OnOk result (out.new.items ≡ out.old.items ++ text_from 8 text.now) }
{
    let mut rest = text;
    let mut spaces = 0usize;
    while rest.len() > 8 {
        let (piece, after) = rest.split_at(8);
        out.extend_from_slice(piece)?;
        spaces = spaces_in_front(after, spaces.saturating_sub(8));
        out.push(mark_behind(after, spaces))?;
        rest = after;
    }
    let count = rest.len();
    out.extend_from_slice(rest)?;
    push_many(out, 8 - count, b' ')?;
    out.push(2)?;
    Ok(())
}

/// The text without the spaces at its end.
pub fn without_spaces(text: &[u8]) -> &[u8]
    ensures { result.now ≡ trimmed text.now }
{
    let spaces = trailing_spaces(text);
    &text[..text.len() - spaces]
}

/// Folds what stands behind the first `start` bytes. Marks are no letters and stay.
fn fold_behind(out: &mut Vec<u8>, start: usize)
    requires { start ≤ length out.old.items }
    ensures { out.new.items ≡ take start out.old.items ++ map upper (drop start out.old.items) }
{
    let (_, pieces) = out.as_mut_slice().split_at_mut(start);
    fold_upper(pieces);
}

/// Adds the pieces of a text with their marks, folded and without the spaces at its end.
pub fn push_text(out: &mut Vec<u8>, collation: Collation, text: &[u8]) -> Result<(), AllocError>
    ensures { OnOk result (out.new.items ≡ out.old.items ++ text_pieces collation text.now) }
{
    let start = out.len();
    push_pieces(out, without_spaces(text))?;
    match collation {
        Collation::Bin => {}
        Collation::Ci => fold_behind(out, start),
    }
    Ok(())
}
