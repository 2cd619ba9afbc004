//! SELECT over rows in several orders.

use crate::statements::{aggregates, condition, listing};
use crate::tables::{answer, table};
use mr_base::{Blob, Stop};
use std::alloc::Global;
use std::test::Fail;

const MIXED: &[u8] = b"71a 20b 9-c 42d 01e 80f 32g 50h 1-i 61j";

/// A digit's number; None for anything else.
fn number(byte: u8) -> Option<u64> {
    if byte.is_ascii_digit() {
        Some((byte - b'0') as u64)
    } else {
        None
    }
}

/// The first and the second column of the mixed rows.
fn listed(alloc: Global, order: &[u8], skip: u8, most: u8) -> Result<Blob, Stop> {
    let def = table(alloc, b"\x00")?;
    let skip = number(skip).unwrap_or(u64::MAX);
    let statement = listing(alloc, order, skip, number(most))?;
    answer(alloc, &def, MIXED, &statement)
}

fn is_listed(alloc: Global, line: &[u8]) -> Result<bool, Stop> {
    match line {
        [first, second, skip, most, b'=', expected @ ..] => {
            let found = listed(alloc, &[*first, *second], *skip, *most)?;
            Ok(found.as_slice() == expected)
        }
        _ => Ok(false),
    }
}

/// The place of the first line whose reply is another one.
fn wrong_listing(alloc: Global, lines: &[u8]) -> Result<Option<usize>, Stop> {
    for (i, line) in lines.split(|byte| *byte == b'\n').enumerate() {
        if !is_listed(alloc, line)? {
            return Ok(Some(i));
        }
    }
    Ok(None)
}

/// COUNT, MIN and MAX of the second and of the third column, of these rows.
fn counted(alloc: Global, rows: &[u8]) -> Result<Blob, Stop> {
    let def = table(alloc, b"\x00")?;
    let statement = aggregates(alloc)?;
    answer(alloc, &def, rows, &statement)
}

fn is_counted(alloc: Global, line: &[u8]) -> Result<bool, Stop> {
    match line {
        [count, least, greatest, first, last, b'=', rows @ ..] => {
            let found = counted(alloc, rows)?;
            Ok(found.as_slice() == [*count, *least, *greatest, *first, *last].as_slice())
        }
        _ => Ok(false),
    }
}

fn wrong_count(alloc: Global, lines: &[u8]) -> Result<Option<usize>, Stop> {
    for (i, line) in lines.split(|byte| *byte == b'\n').enumerate() {
        if !is_counted(alloc, line)? {
            return Ok(Some(i));
        }
    }
    Ok(None)
}

/// The first and the second column of the rows that WHERE keeps.
fn kept(alloc: Global, primary: &[u8], rows: &[u8]) -> Result<Blob, Stop> {
    let def = table(alloc, primary)?;
    let mut statement = listing(alloc, b"", 0, None)?;
    statement.condition = Some(condition(alloc)?);
    answer(alloc, &def, rows, &statement)
}

/// ORDER BY by letters, capital ones turned round; LIMIT's two numbers, digits; and the reply.
const LISTINGS: &[u8] = b"..0-=01 1- 20 32 42 50 61 71 80 9-
b.0-=1- 9- 20 50 80 01 61 71 32 42
B.0-=32 42 01 61 71 20 50 80 1- 9-
BA0-=42 32 71 61 01 80 50 20 9- 1-
b.03=1- 9- 20
B.12=42 01
..85=80 9-
A.02=9- 80
b.00=
..91=9-
A.-2=";

#[test]
fn order_then_limit(rt: HostRuntime) -> Result<(), Fail> {
    assert_eq!(rt; wrong_listing(rt.alloc(), LISTINGS)?, None);
    Ok(())
}

/// The reply, and the rows.
const COUNTS: &[u8] = b"0----=
1--zz=9-z
313AA=91a 22A 33a
902aj=71a 20b 9-c 42d 01e 80f 32g 50h 61j";

#[test]
fn aggregates_of_all_rows(rt: HostRuntime) -> Result<(), Fail> {
    assert_eq!(rt; wrong_count(rt.alloc(), COUNTS)?, None);
    Ok(())
}

#[test]
fn rows_that_where_keeps(rt: HostRuntime) -> Result<(), Fail> {
    let rows = b"96x 55x 47X 18y 3-x 29x";
    let found = kept(rt.alloc(), b"\x00", rows)?;
    assert_eq!(rt; found.as_slice(), b"29 47 96".as_slice());
    Ok(())
}

#[test]
fn rows_by_hidden_numbers(rt: HostRuntime) -> Result<(), Fail> {
    let found = kept(rt.alloc(), b"", b"96x 55x 47X 29x")?;
    assert_eq!(rt; found.as_slice(), b"29 47 96".as_slice());
    Ok(())
}
