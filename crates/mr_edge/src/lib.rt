//! The edge to the real world: a host over a folder and standard output, a source over standard input, and the
//! system's clock. None of them tells its contents, so what the proofs say of a disk holds of this one only as far as
//! the code here and the operating system do what `Disk`, `Host`, `Source` and `Clock` describe.
#![tactic(auto)]

mod clock;
mod files;
mod folder;
mod host;
mod input;
mod tally;

pub use clock::SystemClock;
pub use folder::Locking;
pub use host::FolderHost;
pub use input::StdinSource;
