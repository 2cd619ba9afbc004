//! What a record of the manifest changes.

ghost use Rattle.std.specs.Prelude.{◌≡◌};
ghost use Rattle.mr_manifest.specs.Edits.{first_record as first};

use sqlite_items::Items;

/// The greatest level of a run.
pub(crate) const MAX_LEVEL: u8 = 4;

/// The greatest next file number, 2^63. The sequence numbers are below it.
pub(crate) const MAX_NUMBER: u64 = 0x8000_0000_0000_0000;

/// The folder's format.
pub(crate) const FORMAT: u32 = 1;

/// One edit.
#[derive(Clone, Copy, Drop)]
pub enum Edit {
    /// A run of a family is added: its level is 0 where it is a newest one and else 1 to 4; its file, the file's length in
    /// bytes, and the count of its entries.
    RunAdded {
        family: u32,
        level: u8,
        file: u64,
        length: u64,
        entries: u64,
    },
    /// The run in this file is dropped.
    RunDropped(u64),
    /// The live engine log is this file.
    LiveLog(u64),
    /// A place in the binary log, and the count of commits before it, which is at most the place.
    BinlogPlace {
        place: u64,
        commits: u64,
    },
    /// The next file number, at most 2^63.
    NextFile(u64),
    /// The last sequence number, below 2^63.
    LastSequence(u64),
    /// The folder's format, which is 1.
    Format(u32),
}

/// The edits of a record, in order.
pub type EditList = Items<Edit>;

/// The edits of the first record of a folder.
pub fn first_record() -> [Edit; 5]
    ensures { result ≡ first }
{
    [
        Edit::Format(FORMAT),
        Edit::LiveLog(16),
        Edit::BinlogPlace {
            place: 0,
            commits: 0,
        },
        Edit::NextFile(17),
        Edit::LastSequence(0),
    ]
}
