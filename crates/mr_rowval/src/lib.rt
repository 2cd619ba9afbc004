//! The value of a row's primary entry: written, and decoded by borrowing.
//!
//! It is, one part behind the other:
//!
//! - the stamp, 8 bytes, where the table has a TTL;
//! - the null bits, one per nullable column in column order, least significant first, in as few
//!   bytes as hold them, unused bits 0;
//! - the unpack form of each text of the key, in key order;
//! - the columns that aren't in the key, in column order, each that isn't NULL: a number in 4 or 8
//!   bytes, the highest first, signed ones in two's complement; a text and bytes behind their
//!   length in two bytes.
#![tactic(auto)]

mod encode;
mod fields;
mod key;
mod laws;
mod nulls;
mod packing;
mod parts;
mod plain;
mod row_ref;
mod walked;

pub use encode::{encode_row, push_forms, push_stamp};
pub use key::{held_field, is_in, key_at, unpack_at, wanted_at};
pub use laws::{only_rows_are_read, rows_come_back};
pub use parts::RowParts;
pub use row_ref::RowRef;
pub use walked::is_hidden;
