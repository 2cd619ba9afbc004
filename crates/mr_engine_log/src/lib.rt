//! What the records of an engine log leave: batches of puts and deletions, each of which counts wholly or not at all, plain ones and ones
//! prepared for a commit that another log decides. The records are read one after the other, and added
//! one by one at the end.
#![tactic(auto)]

mod batched;
mod laws;
mod log;
mod reader;
mod record;
mod turn;

pub use batched::{Batched, Counted, Prepared};
pub use laws::{a_new_log_leaves_nothing, sequences_go_on};
pub use log::{ENGINE_LOG_LIMIT, EngineLog};
pub use reader::{Left, LogReader};
