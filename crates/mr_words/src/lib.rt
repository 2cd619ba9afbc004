//! The words of the command line: `run FOLDER [--now=SECS] [--log-limit=BYTES]`.
#![tactic(auto)]

mod command;
mod find;
mod form;
mod numbers;
mod options;
mod places;
mod told;

pub use find::folders;
pub use form::{is_form, options_of};
pub use options::Options;
pub use places::Folders;
