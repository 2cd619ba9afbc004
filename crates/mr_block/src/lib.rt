//! Blocks: the pieces of a run, each a list of versions as bytes.
#![tactic(auto)]

mod block;
mod block_ref;
mod builder;
mod entry;
mod fields;
mod found;
mod one;
mod shared;
mod write;

pub use block_ref::BlockRef;
pub use builder::BlockBuilder;
pub use found::Found;
pub use one::block_of_one;
pub use shared::SharedBlock;
