//! What a plan tells.

use mr_ranges::RangeList;

/// How a condition's rows are found: by an index, 0 for the primary key and then the secondary keys
/// in order; in ranges of the bytes of its keys behind the index number, in ascending order and
/// apart; and whether its entries hold each needed column.
#[derive(Drop)]
pub struct Plan {
    pub index: usize,
    pub ranges: RangeList,
    pub covers: bool,
}
