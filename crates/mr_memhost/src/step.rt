//! A call that changed a file or the output.
use mr_base::Blob;

#[derive(Drop)]
pub enum Step {
    Write { file: u64, at: u64, bytes: Blob },
    Cut { file: u64, to: u64 },
    Sync { file: u64 },
    Emit { bytes: Blob },
}
