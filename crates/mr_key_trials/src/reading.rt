//! Keys that are read column by column.

use mr_base::Malformed;
use mr_memcmp::KeyReader;
use mr_types::{Collation, ColumnType, FieldRef, Kind};
use std::alloc::{AllocError, Global};
use std::test::Fail;

/// Index 257 with the text `Ab ` and the number 3.
const KEY: &[u8] = b"\x00\x00\x01\x01\x01AB      \x02\x80\x00\x00\x00\x00\x00\x00\x03";

/// The text's unpack form, and a byte that isn't used.
const UNPACK: &[u8] = b"\x00\x01\x02\x07";

const TEXT: ColumnType = ColumnType {
    kind: Kind::VarChar(20, Collation::Ci),
    nullable: true,
};

const NUMBER: ColumnType = ColumnType {
    kind: Kind::BigInt,
    nullable: false,
};

fn read_all(mut reader: KeyReader<'_>) -> Result<(), Malformed> {
    let _index = reader.index()?;
    let _text = reader.field(&TEXT)?;
    let _number = reader.field(&NUMBER)?;
    Ok(())
}

fn offence(key: &[u8], unpack: &[u8]) -> Option<u64> {
    match read_all(KeyReader::new(key, unpack)) {
        Ok(()) => None,
        Err(Malformed(at)) => Some(at),
    }
}

fn changed(alloc: Global, bytes: &[u8], at: usize, byte: u8) -> Result<Vec<u8>, AllocError> {
    let mut copy = bytes.to_vec(alloc)?;
    if at < copy.len() {
        copy[at] = byte;
    }
    Ok(copy)
}

fn is_text(field: &FieldRef<'_>, text: &[u8]) -> bool {
    match field {
        FieldRef::Pieces(pieces) => {
            let mut same = pieces.len() == text.len();
            for (at, byte) in text.iter().enumerate() {
                if at < pieces.len() && pieces.byte(at) != *byte {
                    same = false;
                }
            }
            same
        }
        _ => false,
    }
}

#[test]
fn a_key_with_its_unpack_data(rt: HostRuntime) -> Result<(), Fail> {
    let mut reader = KeyReader::new(KEY, UNPACK);
    assert_eq!(rt; reader.index()?, 257);
    let text = reader.field(&TEXT)?;
    assert!(rt; is_text(&text, b"Ab "));
    assert!(rt; matches!(reader.field(&NUMBER)?, FieldRef::Number(3)));
    assert_eq!(rt; reader.unpack_rest(), b"\x07".as_slice());
    assert!(rt; reader.field(&NUMBER).is_err());
    Ok(())
}

/// A byte of the key, what stands there instead, and the offending place.
const KEYS: [(usize, u8, Option<u64>); 9] = [
    (3, 7, None),
    (4, 0, None),
    (4, 2, Some(4)),
    (5, b'a', Some(5)),
    (8, b'X', None),
    (12, 0x80, Some(5)),
    (13, 1, Some(14)),
    (13, 4, Some(5)),
    (21, 9, None),
];

/// The same of the unpack data.
const UNPACKS: [(usize, u8, Option<u64>); 5] = [
    (0, 1, Some(4)),
    (1, 18, None),
    (1, 19, Some(4)),
    (2, 3, None),
    (2, 4, Some(4)),
];

#[test]
fn changed_keys(rt: HostRuntime) -> Result<(), Fail> {
    for (at, byte, wanted) in KEYS {
        let key = changed(rt.alloc(), KEY, at, byte)?;
        assert_eq!(rt; offence(&key, UNPACK), wanted, "{at} is {byte}");
    }
    for (at, byte, wanted) in UNPACKS {
        let unpack = changed(rt.alloc(), UNPACK, at, byte)?;
        assert_eq!(rt; offence(KEY, &unpack), wanted, "{at} is {byte}");
    }
    assert_eq!(rt; offence(&KEY[..21], UNPACK), Some(14));
    assert_eq!(rt; offence(&KEY[..12], UNPACK), Some(5));
    assert_eq!(rt; offence(&KEY[..3], UNPACK), Some(0));
    assert_eq!(rt; offence(KEY, b"\x00\x01"), Some(4));
    Ok(())
}
