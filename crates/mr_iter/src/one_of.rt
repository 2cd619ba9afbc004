//! A cursor of one of two kinds.
ghost use Rattle.mr_iter.specs.OneOf.{one, Holds, in_each};

use crate::cursor::{Cursor, Listed};
use mr_base::{Disk, Stop};

/// One of two cursors: what the one that is there means.
#[derive(Drop)]
pub enum OneOf<A, B> {
    First(A),
    Second(B),
}

impl<A: Listed, B: Listed> Listed for OneOf<A, B> {
    ghost cursor = { λ c. one A.cursor B.cursor c };

    ghost whole = { λ c image. Holds (λ a. A.whole a image) (λ b. B.whole b image) c };

    ghost offends = { λ c image file at. Holds (λ a. A.offends a image file at) (λ b. B.offends b image file at) c };

    ghost steady = { λ c image. Holds (λ a. A.steady a image) (λ b. B.steady b image) c };

    fn at_end(&self) -> bool {
        match self {
            OneOf::First(a) => a.at_end(),
            OneOf::Second(b) => b.at_end(),
        }
    }

    fn key(&self) -> &[u8] {
        match self {
            OneOf::First(a) => a.key(),
            OneOf::Second(b) => b.key(),
        }
    }

    fn value(&self) -> &[u8] {
        match self {
            OneOf::First(a) => a.value(),
            OneOf::Second(b) => b.value(),
        }
    }

    fn sequence(&self) -> u64 {
        match self {
            OneOf::First(a) => a.sequence(),
            OneOf::Second(b) => b.sequence(),
        }
    }

    fn is_put(&self) -> bool {
        match self {
            OneOf::First(a) => a.is_put(),
            OneOf::Second(b) => b.is_put(),
        }
    }

    ghost not_whole = { in_each _ A.not_whole B.not_whole };

    ghost in_order = { in_each _ A.in_order B.in_order };

    ghost by_files = { in_each _ A.by_files B.by_files };

    ghost offends_by_files = { in_each _ A.offends_by_files B.offends_by_files };

    ghost in_place = { in_each _ A.in_place B.in_place };

    ghost costs = { in_each _ A.costs B.costs };

    ghost to_end = { in_each _ A.to_end B.to_end };

    ghost going = { in_each _ A.going B.going };

    ghost bounded = { in_each _ A.bounded B.bounded };
}

impl<D: Disk, A: Cursor<D>, B: Cursor<D>> Cursor<D> for OneOf<A, B> {
    fn seek(&mut self, disk: &mut D, key: &[u8]) -> Result<(), Stop> {
        match self {
            OneOf::First(a) => a.seek(disk, key),
            OneOf::Second(b) => b.seek(disk, key),
        }
    }

    fn next(&mut self, disk: &mut D) -> Result<(), Stop> {
        match self {
            OneOf::First(a) => a.next(disk),
            OneOf::Second(b) => b.next(disk),
        }
    }
}
