//! Statements that the tests ask.

use mr_base::{Blob, Memory};
use mr_bound::{BoundAggregate, BoundColumns, BoundOrder, BoundOrderList, BoundSelect};
use mr_spec::Bound;
use mr_types::{Cmp, Value};
use sqlite_items::Items;
use std::alloc::Global;

/// ORDER BY, a letter a column, which is a capital letter where the order is turned.
fn order_of(alloc: Global, letters: &[u8]) -> Result<BoundOrderList, Memory> {
    let mut items = Items::new(alloc);
    for letter in letters {
        if letter.is_ascii_alphabetic() {
            items.push(BoundOrder {
                column: letter.to_ascii_lowercase() % 32 - 1,
                descending: letter.is_ascii_uppercase(),
            })?;
        }
    }
    Ok(items)
}

/// The first and the second column.
pub fn listing(
    alloc: Global,
    order: &[u8],
    skip: u64,
    most: Option<u64>,
) -> Result<BoundSelect, Memory> {
    Ok(BoundSelect {
        columns: BoundColumns::Places(Blob::from_slice(alloc, b"\x00\x01")?),
        condition: None,
        order: order_of(alloc, order)?,
        skip,
        most,
    })
}

/// COUNT, MIN and MAX of the second and of the third column.
pub fn aggregates(alloc: Global) -> Result<BoundSelect, Memory> {
    let mut items = Items::new(alloc);
    items.push(BoundAggregate::Count)?;
    items.push(BoundAggregate::Min(1))?;
    items.push(BoundAggregate::Max(1))?;
    items.push(BoundAggregate::Min(2))?;
    items.push(BoundAggregate::Max(2))?;
    Ok(BoundSelect {
        columns: BoundColumns::Aggregates(items),
        condition: None,
        order: Items::new(alloc),
        skip: 0,
        most: None,
    })
}

/// The second column above 5, and the third one `x`.
pub fn condition(alloc: Global) -> Result<Bound, Memory> {
    let mut parts = Items::new(alloc);
    parts.push(Bound::Compare(1, Cmp::Gt, Value::Number(5)))?;
    let text = Value::Text(Blob::from_slice(alloc, b"x")?);
    parts.push(Bound::Compare(2, Cmp::Eq, text))?;
    Ok(Bound::And(parts))
}
