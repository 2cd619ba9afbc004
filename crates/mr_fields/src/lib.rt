//! Fields of the formats, read in front of bytes and written behind them.
//!
//! Numbers are big-endian. A name is a length of one byte and its bytes, a text a length of two
//! bytes and its bytes. A reader gives what it read and the bytes behind it, or how many bytes are
//! left from the first byte of the field that breaks its rule or isn't whole.
#![tactic(auto)]

mod numbers;
mod rows;
mod sizes;
mod stop;
mod texts;
mod write;
mod write_rows;

pub use numbers::{byte_at, flag_at, u16_at, u32_at, u64_at};
pub use rows::{row_at, value_at};
pub use sizes::{change_weight, is_equal_row, row_size};
pub use stop::{Offence, ReadStop, answer_of, end_of};
pub use texts::{bytes16_at, name_at, text16_at};
pub use write::{
    write_byte, write_bytes, write_count, write_flag, write_name, write_text16, write_u16,
    write_u32, write_u64,
};
pub use write_rows::{write_row, write_value};
