//! The records of the engine log: batches of puts and deletions, prepared or plain, as bytes.
#![tactic(auto)]

mod fields;
mod length;
mod operation;
mod read;
mod record;
mod stop;
mod write;

pub use length::{plain_length, prepare_length};
pub use operation::{Batch, Operation, OperationRef};
pub use read::read_record;
pub use record::{WalBody, WalRecord};
pub use write::write_record;
