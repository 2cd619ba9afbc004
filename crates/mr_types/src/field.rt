//! Fields that lie in a key or a row.

ghost use Rattle.std.specs.Prelude.{◌≡◌, ◌<◌, length, slice_index};
ghost use Rattle.mr_types.specs.Fields.{Lies, lying};

use crate::kind::Kind;
use mr_pieces::{bytes_byte, bytes_length, text_byte, text_length};
use std::marker::Model;

/// A text or bytes that lie in a key in pieces, with what the key dropped of them, and their length;
/// contracts see the bytes of the value.
#[derive(Drop)]
pub struct Pieces<'a> {
    pieces: &'a [u8],
    unpack: &'a [u8],
    kind: Kind,
    size: usize,
}

impl<'a> Model for Pieces<'a> {
    ghost use Rattle.std.specs.Prelude.{◌≡◌, ℕ, List, length};
    ghost use Rattle.mr_types.specs.Fields.{Lies, lying};

    ghost Value = { List ℕ };

    ghost view = { λ p. lying p.kind p.pieces.now p.unpack.now };

    ghost invariant = { λ p. Lies p.kind p.pieces.now p.unpack.now × (p.size ≡ length (lying p.kind p.pieces.now p.unpack.now)) };
}

/// How many bytes lie in pieces.
fn length_in(pieces: &[u8], unpack: &[u8], kind: Kind) -> usize
    requires { Lies kind pieces.now unpack.now }
    ensures { result ≡ length (lying kind pieces.now unpack.now) }
{
    match kind {
        Kind::VarChar(_, collation) => text_length(collation, pieces, unpack),
        _ => bytes_length(pieces),
    }
}

impl<'a> Pieces<'a> {
    /// The whole pieces of one column of the kind, without the byte for NULL, and the unpack form
    /// that fits them, which is empty for bytes.
    pub fn new(pieces: &'a [u8], unpack: &'a [u8], kind: Kind) -> Pieces<'a>
        requires { Lies kind pieces.now unpack.now }
        ensures { result ≡ lying kind pieces.now unpack.now }
    {
        Pieces {
            pieces,
            unpack,
            kind,
            size: length_in(pieces, unpack, kind),
        }
    }

    /// The same pieces once more, at no cost.
    pub fn lent(&self) -> Pieces<'a>
        ensures { result ≡ self.now }
    {
        Pieces {
            pieces: self.pieces,
            unpack: self.unpack,
            kind: self.kind,
            size: self.size,
        }
    }

    /// How many bytes the text or the bytes have. It is kept, and not counted again.
    pub fn len(&self) -> usize
        ensures { result ≡ length self.now }
    {
        self.size
    }

    /// The byte at a place of the text or of the bytes.
    pub fn byte(&self, at: usize) -> u8
        requires { at < length self.now }
        ensures { result ≡ slice_index self.now at }
    {
        match self.kind {
            Kind::VarChar(_, collation) => text_byte(collation, self.pieces, self.unpack, at),
            _ => bytes_byte(self.pieces, at),
        }
    }
}

/// A value where it lies, without a copy.
#[derive(Drop)]
pub enum FieldRef<'a> {
    Null,
    Number(i128),
    Slice(&'a [u8]),
    Pieces(Pieces<'a>),
}

impl<'a> FieldRef<'a> {
    /// The same field once more, where it lies, at no cost.
    pub fn lent(&self) -> FieldRef<'a>
        ensures { result ≡ self.now }
    {
        match self {
            FieldRef::Null => FieldRef::Null,
            FieldRef::Number(number) => FieldRef::Number(*number),
            FieldRef::Slice(slice) => FieldRef::Slice(*slice),
            FieldRef::Pieces(pieces) => FieldRef::Pieces(pieces.lent()),
        }
    }
}
