//! Texts in order, and rows that expire.

use mr_types::{Collation, FieldRef, Kind, compare, is_expired};
use std::cmp::Ordering;
use std::test::Fail;

/// Pairs of texts, parted by `~`: a sign for the collation, the two texts, and how the first one stands to the second.
const ORDERS: &str =
    "ci|Ab |aB|equal~bin|Ab|aB|less~bin|a\t|a|less~bin|a!|a|greater~ci|_|a|greater";

/// How two texts stand to each other.
fn order_of(collation: &str, left: &str, right: &str) -> Ordering {
    let collation = if collation == "ci" {
        Collation::Ci
    } else {
        Collation::Bin
    };
    compare(
        FieldRef::Slice(left.as_bytes()),
        FieldRef::Slice(right.as_bytes()),
        Kind::VarChar(9, collation),
    )
}

fn name_of(order: Ordering) -> &'static str {
    match order {
        Ordering::Less => "less",
        Ordering::Equal => "equal",
        Ordering::Greater => "greater",
    }
}

/// Whether a row of the table is right.
fn is_right(row: &str) -> bool {
    let mut parts = row.split('|');
    let (Some(collation), Some(left), Some(right)) = (parts.next(), parts.next(), parts.next())
    else {
        return false;
    };
    parts.next() == Some(name_of(order_of(collation, left, right)))
}

#[test]
fn texts_in_order(rt: HostRuntime) -> Result<(), Fail> {
    for row in ORDERS.split('~') {
        assert!(rt; is_right(row), "{row}");
    }
    Ok(())
}

#[test]
fn nulls_come_first(rt: HostRuntime) -> Result<(), Fail> {
    let order = compare(FieldRef::Null, FieldRef::Number(-1), Kind::Int);
    assert_eq!(rt; order, Ordering::Less);
    Ok(())
}

#[test]
fn rows_expire_at_their_moment(rt: HostRuntime) -> Result<(), Fail> {
    assert!(rt; is_expired(10, 5, 15));
    assert!(rt; !is_expired(10, 5, 14));
    assert!(rt; !is_expired(u64::MAX, 1, u64::MAX));
    Ok(())
}
