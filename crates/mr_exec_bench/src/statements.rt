//! The statements that are timed.

use mr_base::{Blob, Memory};
use mr_bound::{BoundColumns, BoundOrder, BoundSelect};
use mr_spec::Bound;
use mr_types::{Cmp, Value};
use sqlite_items::Items;
use std::alloc::Global;

/// The second column above 5, and the third one `x`.
fn condition(alloc: Global) -> Result<Bound, Memory> {
    let mut parts = Items::new(alloc);
    parts.push(Bound::Compare(1, Cmp::Gt, Value::Number(5)))?;
    let text = Value::Text(Blob::from_slice(alloc, b"x")?);
    parts.push(Bound::Compare(2, Cmp::Eq, text))?;
    Ok(Bound::And(parts))
}

/// The first and the second column of the rows that WHERE keeps.
pub fn listing(alloc: Global) -> Result<BoundSelect, Memory> {
    Ok(BoundSelect {
        columns: BoundColumns::Places(Blob::from_slice(alloc, b"\x00\x01")?),
        condition: Some(condition(alloc)?),
        order: Items::new(alloc),
        skip: 0,
        most: None,
    })
}

/// The first ten of them by the second column.
pub fn ordered(alloc: Global) -> Result<BoundSelect, Memory> {
    let mut statement = listing(alloc)?;
    statement.order.push(BoundOrder {
        column: 1,
        descending: false,
    })?;
    statement.most = Some(10);
    Ok(statement)
}
