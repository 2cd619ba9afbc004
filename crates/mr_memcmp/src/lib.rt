//! Keys of an index, whose byte order is the order of their columns.
//!
//! A key is the index number, four bytes, and the columns of the index one behind the other:
//!
//! - A column that takes NULL begins with 0 for NULL, behind which nothing stands of it, or 1.
//! - INT has 4 bytes and BIGINT 8, the highest first; signed numbers have their sign bit flipped.
//! - VARCHAR and VARBINARY lie in pieces.
//!
//! Behind them stands the hidden number, 8 bytes, where the table has no primary key.
#![tactic(auto)]

mod above;
mod column;
mod encode;
mod full;
mod kept;
mod key_reader;
mod laws;
mod number;
mod order;
mod parts;

pub use above::{above_prefix, least_above_prefixes, prefixes_are_ranges};
pub use encode::{encode_columns, encode_key};
pub use full::full_at;
pub use kept::{Kept, kept_at};
pub use key_reader::KeyReader;
pub use laws::{
    columns_come_back, columns_in_order, keys_come_back, keys_in_order, keys_in_range,
    only_columns_are_read, rows_fit,
};
pub use number::{u32_at, u64_at};
pub use order::compare_keys;
pub use parts::{encode_parts, fits, parts_in_range};
