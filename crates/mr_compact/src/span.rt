//! The runs of a family by their keys, and a choice of them.
ghost use Rattle.std.specs.Prelude.{◌≡◌};
ghost use Rattle.mr_compact.specs.Levels.{comes_before as before, span_of, overlap};

use mr_base::{Blob, Direction};
use mr_iter::{RunInfo, compare_keys};
use sqlite_items::Items;

/// A live run: its level, which is 0 for a newest run and else 1 to 4, its file, and its first and last key in the family's
/// direction.
#[derive(Drop)]
pub struct Span {
    pub level: u8,
    pub info: RunInfo,
    pub first: Blob,
    pub last: Blob,
}

/// The live runs of one family.
pub type SpanList = Items<Span>;

/// Numbers of files.
pub type FileList = Items<u64>;

/// The runs that are merged next: the level of the new runs, 1 to 4, the files of the runs that they take the place of, and
/// whether no deeper level has a run that overlaps one of these.
#[derive(Drop)]
pub struct Pick {
    pub level: u8,
    pub files: FileList,
    pub bottom: bool,
}

/// Whether a key comes before another, byte by byte.
pub(crate) fn comes_before(a: &[u8], b: &[u8]) -> bool
    ensures { result ≡ before a.now b.now }
{
    compare_keys(Direction::Forward, a, b).is_lt()
}

impl Span {
    /// The least of its keys, byte by byte.
    pub(crate) fn least(&self) -> &[u8]
        ensures { result.now ≡ (span_of self.now).least }
    {
        if comes_before(self.last.as_slice(), self.first.as_slice()) {
            self.last.as_slice()
        } else {
            self.first.as_slice()
        }
    }

    /// The greatest of its keys, byte by byte.
    pub(crate) fn greatest(&self) -> &[u8]
        ensures { result.now ≡ (span_of self.now).greatest }
    {
        if comes_before(self.first.as_slice(), self.last.as_slice()) {
            self.last.as_slice()
        } else {
            self.first.as_slice()
        }
    }

    /// Whether neither's greatest key comes before the other's least.
    pub(crate) fn overlaps(&self, other: &Span) -> bool
        ensures { result ≡ overlap (span_of self.now) (span_of other.now) }
    {
        !comes_before(self.greatest(), other.least())
            && !comes_before(other.greatest(), self.least())
    }
}
