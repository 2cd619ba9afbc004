//! The binary log: commits as the bytes of its bodies, and back.
#![tactic(auto)]

mod commit_read;
mod commit_write;
mod laws;
mod log;

pub use commit_read::read_commit;
pub use commit_write::write_commit;
pub use laws::{keys_of_tables_fit, no_commit_is_a_front, one_commit_more};
pub use log::{BINARY_LOG, Binlog};
