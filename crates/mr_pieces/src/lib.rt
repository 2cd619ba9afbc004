//! Pieces: how a text or bytes lie in a key, so that the order of the bytes is the order of the
//! values, and the unpack form, which keeps what a key drops of a text.
//!
//! - Bytes are cut into pieces of 8, each with a count behind it: 9 where more pieces follow, else
//!   the number of bytes in this last piece, which is padded with zeros. Bytes whose length is a
//!   multiple of 8 above 0 end in a full piece with count 8; no bytes are one piece with count 0.
//! - A text is folded, loses the spaces at its end, and is cut into pieces of 8, the last padded
//!   with spaces. Behind each piece stands a mark: 2 where nothing follows, 1 where the first
//!   byte of the rest that is no space is below a space, 3 where it is above.
#![tactic(auto)]

mod collation;
mod laws;
mod places;
mod reader;
mod unpack_form;
mod unpack_reader;
mod writer;

pub use collation::Collation;
pub use laws::{pieces_come_back, pieces_decide_first, texts_in_order};
pub use places::{bytes_byte, bytes_length, text_byte, text_length};
pub use reader::{BytesLeft, split_bytes, split_text};
pub use unpack_form::push_unpack;
pub use unpack_reader::split_unpack;
pub use writer::{push_bytes, push_text, without_spaces};
