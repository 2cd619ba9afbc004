//! Texts that are taken apart and put together again.

use mr_base::{Blob, Memory};
use mr_pieces::{split_text, split_unpack};
use mr_types::{Collation, Kind, Pieces};
use mr_unpack::{make_unpack, restore};
use std::alloc::Global;
use std::test::Fail;

const TEXTS: [(&str, Collation, &[u8], &[u8], &[u8]); 5] = [
    (
        "spaces at the end",
        Collation::Bin,
        b"Ab ",
        b"Ab      \x02",
        b"\x00\x01",
    ),
    (
        "letter case and spaces",
        Collation::Ci,
        b"Ab ",
        b"AB      \x02",
        b"\x00\x01\x02",
    ),
    (
        "the empty text",
        Collation::Ci,
        b"",
        b"        \x02",
        b"\x00\x00",
    ),
    (
        "spaces alone",
        Collation::Ci,
        b"   ",
        b"        \x02",
        b"\x00\x03",
    ),
    (
        "nine letters",
        Collation::Ci,
        b"aBcDeFgHi",
        b"ABCDEFGH\x03I       \x02",
        b"\x00\x00\x55\x01",
    ),
];

/// The text that a key's pieces and an unpack form give, None where one of them is malformed.
fn restored(
    alloc: Global,
    collation: Collation,
    key: &[u8],
    form: &[u8],
) -> Result<Option<Blob>, Memory> {
    let Ok((pieces, _)) = split_text(collation, key) else {
        return Ok(None);
    };
    match split_unpack(collation, 20, pieces, form) {
        Ok((front, _)) => {
            let kind = Kind::VarChar(20, collation);
            Ok(Some(restore(alloc, Pieces::new(pieces, front, kind))?))
        }
        Err(_) => Ok(None),
    }
}

/// Whether this is a text's unpack form, and the text comes back.
fn comes_back(
    alloc: Global,
    collation: Collation,
    text: &[u8],
    key: &[u8],
    form: &[u8],
) -> Result<bool, Memory> {
    let unpack = make_unpack(alloc, Kind::VarChar(20, collation), text)?;
    match restored(alloc, collation, key, form)? {
        Some(back) => Ok(unpack.as_slice() == form && back.as_slice() == text),
        None => Ok(false),
    }
}

#[test]
fn texts_restored(rt: HostRuntime) -> Result<(), Fail> {
    for (name, collation, text, key, form) in TEXTS {
        assert!(rt;
            comes_back(rt.alloc(), collation, text, key, form)?,
            "{name}"
        );
    }
    assert_eq!(rt;
        make_unpack(rt.alloc(), Kind::VarBinary(9), b"Ab ")?.len(),
        0
    );
    Ok(())
}
