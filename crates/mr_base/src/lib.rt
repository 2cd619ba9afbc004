//! The outside as the engine sees it, and why a call stops.
#![tactic(auto)]

mod blob;
mod disk;
mod source;
mod stop;

pub use blob::Blob;
pub use disk::{Disk, Host};
pub use source::{Clock, Source};
pub use stop::{
    DefAnswer, Direction, DiskFault, EmitFault, FullKind, Malformed, Memory, SourceFault, Stop,
};
