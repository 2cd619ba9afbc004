//! Values as fields, and fields as values.

ghost use Rattle.std.specs.Prelude.{◌≡◌, true, IfOk};
ghost use Rattle.mr_types.specs.declared.kind.Kind.{Kind};
ghost use Rattle.mr_types.specs.FieldValues.{bytes_of, bytes_in, field_value, value_of_bytes, is_held_by};

use crate::field::{FieldRef, Pieces};
use crate::kind::Kind;
use crate::value::Value;
use mr_base::{Blob, Memory};
use std::alloc::{AllocError, Global};

impl Value {
    /// The value as a field, lent where it is a text or bytes. In a column of a kind that has such
    /// values the field's value is this one; in any the field has its bytes.
    #[tactic(auto, using(crate::proofs::Alike::text_there, crate::proofs::Alike::bytes_there))]
    pub fn as_field(&self) -> FieldRef<'_>
        ensures value { (kind : Kind) → is_held_by kind self.now ≡ true → field_value kind result ≡ self.now }
        ensures bytes { bytes_of result ≡ bytes_in self.now }
    {
        match self {
            Value::Null => FieldRef::Null,
            Value::Number(number) => FieldRef::Number(*number),
            Value::Text(text) => FieldRef::Slice(text.as_slice()),
            Value::Bytes(bytes) => FieldRef::Slice(bytes.as_slice()),
        }
    }
}

/// A text in a column of texts, else bytes.
fn value_of_bytes(kind: Kind, bytes: Blob) -> Value
    ensures { result ≡ value_of_bytes kind bytes }
{
    match kind {
        Kind::VarChar(..) => Value::Text(bytes),
        _ => Value::Bytes(bytes),
    }
}

/// A copy of what lies in pieces.
fn pieces_copy(alloc: Global, pieces: &Pieces<'_>) -> Result<Vec<u8>, AllocError>
    ensures { IfOk result (λ bytes. bytes.items ≡ pieces.now) }
{
    let mut bytes = Vec::with_capacity(alloc, pieces.len())?;
    for at in 0..pieces.len() {
        bytes.push(pieces.byte(at))?;
    }
    Ok(bytes)
}

/// A text or bytes in pieces, copied.
fn value_of_pieces(alloc: Global, kind: Kind, pieces: &Pieces<'_>) -> Result<Value, Memory>
    ensures { IfOk result (λ value. value ≡ value_of_bytes kind pieces.now) }
{
    let bytes = pieces_copy(alloc, pieces)?;
    Ok(value_of_bytes(kind, Blob::from_vec(bytes)))
}

impl<'a> FieldRef<'a> {
    /// A copy of the field's value in a column of this kind. It fails for want of memory alone.
    pub fn to_value(&self, alloc: Global, kind: Kind) -> Result<Value, Memory>
        ensures { IfOk result (λ value. value ≡ field_value kind self.now) }
    {
        match self {
            FieldRef::Null => Ok(Value::Null),
            FieldRef::Number(number) => Ok(Value::Number(*number)),
            FieldRef::Slice(slice) => Ok(value_of_bytes(kind, Blob::from_slice(alloc, slice)?)),
            FieldRef::Pieces(pieces) => value_of_pieces(alloc, kind, pieces),
        }
    }
}
