//! Writing runs: versions in order, one after another, as files.
#![tactic(auto)]

mod buffer;
mod fields;
mod files;
mod open_block;
mod run_index;
mod writer;

pub use files::RunFiles;
pub use writer::RunWriter;
