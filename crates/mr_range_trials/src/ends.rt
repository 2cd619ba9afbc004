//! Where ranges begin and end.

use crate::tables::names;
use mr_base::{Blob, Memory};
use mr_memcmp::{above_prefix, encode_parts};
use mr_types::Value;
use sqlite_items::Items;
use std::alloc::Global;
use std::test::Fail;

/// Whether these are the least bytes behind all that go on from a front; none are where there are
/// no such bytes.
fn is_above(alloc: Global, prefix: &[u8], wanted: &[u8]) -> Result<bool, Memory> {
    match above_prefix(alloc, prefix)? {
        None => Ok(wanted.is_empty()),
        Some(above) => Ok(above.as_slice() == wanted),
    }
}

#[test]
fn bytes_behind_a_front(rt: HostRuntime) -> Result<(), Fail> {
    assert!(rt; is_above(rt.alloc(), b"ab", b"ac")?);
    assert!(rt; is_above(rt.alloc(), b"a\xff\xff", b"b")?);
    assert!(rt; is_above(rt.alloc(), b"\xff\xff", b"")?);
    assert!(rt; is_above(rt.alloc(), b"", b"")?);
    Ok(())
}

/// The bytes of a text that is given for a column of 20 bytes, without an index number.
fn given_bytes(alloc: Global, text: &[u8]) -> Result<Blob, Memory> {
    let def = names(alloc)?;
    let mut values = Items::new(alloc);
    values.push(Value::Text(Blob::from_slice(alloc, text)?))?;
    encode_parts(alloc, None, &def, b"\x01", values.as_slice())
}

/// Whether a given text has these bytes.
fn is_given(alloc: Global, text: &[u8], wanted: &[u8]) -> Result<bool, Memory> {
    Ok(given_bytes(alloc, text)?.as_slice() == wanted)
}

#[test]
fn given_texts_are_cut(rt: HostRuntime) -> Result<(), Fail> {
    assert!(rt;
        is_given(
            rt.alloc(),
            b"ab                              ",
            b"\x01AB      \x02"
        )?
    );
    assert!(rt;
        is_given(
            rt.alloc(),
            b"ab                           !xyz",
            b"\x01AB      \x03        \x03    !   \x02"
        )?
    );
    Ok(())
}
