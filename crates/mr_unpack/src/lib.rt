//! Unpack data: what a key drops of a text, so that the text can be had back byte for byte.
//!
//! A key keeps a text folded and without the spaces at its end. Its unpack form has
//!
//! - the number of these spaces, a u16, and
//! - where the text was folded, one bit per byte of the shortened text, least significant first,
//!   set where the byte was a lower-case letter; unused bits are 0.
//!
//! Bytes lie whole in a key and have no unpack form.
#![tactic(auto)]

ghost use Rattle.std.specs.Prelude.{◌≡◌, ◌<◌, ◌^◌, ℕ, List, length, IfOk};
ghost use Rattle.mr_types.specs.declared.kind.Kind.{Kind};
ghost use Rattle.mr_types.specs.Fields.{unpack_of};
ghost use Rattle.mr_unpack.specs.Promises.{HasForm, ComesBack, IsTextOf};

use mr_base::{Blob, Memory};
use mr_pieces::push_unpack;
use mr_types::{Kind, Pieces};
use std::alloc::{AllocError, Global};

/// The unpack form of a text of the kind, which is empty for any kind but VARCHAR. A text of more
/// than 65,535 bytes, which no column takes, has none: `Memory`.
pub fn make_unpack(alloc: Global, kind: Kind, text: &[u8]) -> Result<Blob, Memory>
    ensures form { IfOk result (λ form. form ≡ unpack_of kind text.now) }
    ensures has_form { IfOk result (λ _. HasForm kind text.now) }
{
    let mut out = Vec::new(alloc);
    match kind {
        Kind::VarChar(_, collation) => {
            if text.len() > 0xFFFF {
                return Err(Memory);
            }
            push_unpack(&mut out, collation, text)?;
        }
        _ => {}
    }
    Ok(Blob::from_vec(out))
}

fn bytes_of(alloc: Global, pieces: &Pieces<'_>) -> Result<Vec<u8>, AllocError>
    ensures { IfOk result (λ out. out.items ≡ pieces.now) }
{
    let mut out = Vec::with_capacity(alloc, pieces.len())?;
    for at in 0..pieces.len() {
        out.push(pieces.byte(at))?;
    }
    Ok(out)
}

/// The text, or the bytes, that lie in these pieces.
pub fn restore(alloc: Global, pieces: Pieces<'_>) -> Result<Blob, Memory>
    ensures { IfOk result (λ text. text ≡ pieces.entry) }
{
    Ok(Blob::from_vec(bytes_of(alloc, &pieces)?))
}

/// A text's pieces and its unpack form lie together, and are that text byte for byte: spaces at
/// its end and letter case included. So are bytes.
pub fn texts_come_back()
    ensures { (kind : Kind) (text : List ℕ) → IsTextOf kind text → ComesBack kind text }
{}
