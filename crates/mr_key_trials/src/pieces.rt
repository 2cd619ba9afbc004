//! Worked pieces and unpack forms.

use mr_pieces::{
    Collation, push_bytes, push_text, push_unpack, split_bytes, split_text, split_unpack,
};
use std::alloc::{AllocError, Global};
use std::test::Fail;

const BYTES: [(&[u8], &[u8]); 3] = [
    (b"abcdefgh", b"abcdefgh\x08"),
    (
        b"abcdefgh\x00",
        b"abcdefgh\x09\x00\x00\x00\x00\x00\x00\x00\x00\x01",
    ),
    (b"", b"\x00\x00\x00\x00\x00\x00\x00\x00\x00"),
];

const TEXTS: [(Collation, &[u8], &[u8], &[u8]); 5] = [
    (Collation::Bin, b"abcdefgh", b"abcdefgh\x02", b"\x00\x00"),
    (
        Collation::Bin,
        b"abcdefgh\t",
        b"abcdefgh\x01\t       \x02",
        b"\x00\x00",
    ),
    (
        Collation::Bin,
        b"abcdefghi",
        b"abcdefgh\x03i       \x02",
        b"\x00\x00",
    ),
    (
        Collation::Bin,
        b"abcdefgh  x",
        b"abcdefgh\x03  x     \x02",
        b"\x00\x00",
    ),
    (Collation::Ci, b"Ab ", b"AB      \x02", b"\x00\x01\x02"),
];

#[test]
fn pieces_of_bytes(rt: HostRuntime) -> Result<(), Fail> {
    for (bytes, pieces) in BYTES {
        let mut out = Vec::new(rt.alloc());
        push_bytes(&mut out, bytes)?;
        assert_eq!(rt; out.as_slice(), pieces);
        let cut = split_bytes(pieces);
        assert_eq!(rt; cut.ok(), Some((pieces, b"".as_slice())));
    }
    assert_eq!(rt;
        split_bytes(b"abcdefgh\x09\x00\x00\x00\x00\x00\x00\x00\x00\x00").err(),
        Some(9)
    );
    Ok(())
}

const FORMS: [(u16, &[u8], Option<&[u8]>, Option<usize>); 6] = [
    (3, b"\x00\x01\x02\x07", Some(b"\x00\x01\x02"), None),
    (2, b"\x00\x01\x02\x07", None, Some(4)),
    (9, b"\x00\x01\x04", None, Some(1)),
    (9, b"\x00\x01", None, Some(0)),
    (9, b"\x00", None, Some(1)),
    (9, b"\x00\x07\x03", Some(b"\x00\x07\x03"), None),
];

/// The unpack form at the front of these bytes, or how many bytes are left at the first offence; it stands beside the
/// letters `AB`.
fn form_of(width: u16, unpack: &[u8]) -> (Option<&[u8]>, Option<usize>) {
    match split_text(Collation::Ci, b"AB      \x02") {
        Ok((pieces, _)) => match split_unpack(Collation::Ci, width, pieces, unpack) {
            Ok((front, _)) => (Some(front), None),
            Err(left) => (None, Some(left)),
        },
        Err(_) => (None, None),
    }
}

#[test]
fn forms_beside_two_letters(rt: HostRuntime) -> Result<(), Fail> {
    for (width, unpack, form, left) in FORMS {
        assert_eq!(rt; form_of(width, unpack), (form, left));
    }
    Ok(())
}

/// Whether a text has these pieces and this unpack form.
fn is_text(
    alloc: Global,
    collation: Collation,
    text: &[u8],
    pieces: &[u8],
    unpack: &[u8],
) -> Result<bool, AllocError> {
    let mut out = Vec::new(alloc);
    push_text(&mut out, collation, text)?;
    let mut form = Vec::new(alloc);
    if text.len() < 65536 {
        push_unpack(&mut form, collation, text)?;
    }
    Ok(out.as_slice() == pieces && form.as_slice() == unpack)
}

#[test]
fn pieces_of_texts(rt: HostRuntime) -> Result<(), Fail> {
    for (collation, text, pieces, unpack) in TEXTS {
        assert!(rt; is_text(rt.alloc(), collation, text, pieces, unpack)?);
        let cut = split_text(collation, pieces);
        assert_eq!(rt; cut.ok(), Some((pieces, b"".as_slice())));
    }
    assert_eq!(rt;
        split_text(Collation::Bin, b"abcdefgh\x01i       \x02").err(),
        Some(18)
    );
    assert_eq!(rt; split_text(Collation::Ci, b"a       \x02").err(), Some(9));
    Ok(())
}
