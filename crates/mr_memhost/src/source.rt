//! A source of bytes in memory.
ghost use Rattle.std.specs.Prelude.{◌≡◌, ◌≤◌, ◌<◌, ◌+◌, ◌-◌, ◌++◌, ℕ, [], IsTrue, if◌then◌else◌, length, take, min, IfOk, OnErr, is_err};
ghost use Rattle.mr_base.specs.Disk.{HasRisen};

use mr_base::{Memory, Source, SourceFault};
use std::alloc::Global;

/// A list of bytes that is taken in pieces of at most so many, where one take can be made to fail.
#[derive(Drop)]
pub struct MemSource {
    bytes: Vec<u8>,
    taken: usize,
    piece: usize,
    /// The number of the take that fails, counted from 1.
    fail_at: Option<u64>,
    takes: u64,
    faults: u64,
    ghost within: { taken ≤ length bytes.items },
    ghost some: { 1 ≤ piece },
}

impl MemSource {
    ghost use Rattle.mr_memhost.specs.Supplies.{supply, TakePlan, take_plan};

    /// The takes are numbered from 1.
    pub fn new(
        alloc: Global,
        bytes: &[u8],
        piece: usize,
        fail_at: Option<u64>,
    ) -> Result<MemSource, Memory>
        requires { 1 ≤ piece }
        ensures left { IfOk result (λ s. (supply s).left ≡ bytes.now) }
        ensures tells { IfOk result (λ s. IsTrue (supply s).tells) }
        ensures faults { IfOk result (λ s. (supply s).faults ≡ 0) }
        ensures plan { IfOk result (λ s. take_plan s ≡ record { piece = piece; fail_at = fail_at; takes = 0 }) }
    {
        Ok(MemSource {
            bytes: bytes.to_vec(alloc)?,
            taken: 0,
            piece,
            fail_at,
            takes: 0,
            faults: 0,
        })
    }

    /// The bytes that are left.
    pub fn rest(&self) -> &[u8]
        ensures { result.now ≡ (supply self.now).left }
    {
        &self.bytes[self.taken..]
    }

    pub fn faults(&self) -> u64
        ensures { result ≡ (supply self.now).faults }
    {
        self.faults
    }
}

impl Source for MemSource {
    ghost use Rattle.mr_memhost.specs.Supplies.{supply, take_plan, is_take_due, taken_once};
    ghost use Rattle.mr_memhost.specs.Host.{raised};

    ghost source = { supply };

    fn take(&mut self, out: &mut [u8]) -> Result<usize, SourceFault>
        ensures tells { (supply self.new).tells ≡ (supply self.old).tells }
        ensures later { (supply self.old).faults ≤ (supply self.new).faults }
        ensures cause { OnErr result (HasRisen (supply self.old).faults (supply self.new).faults) }
        ensures fits { IfOk result (λ n. n ≤ length out.old) }
        ensures moved { IsTrue (supply self.old).tells → IfOk result (λ n. (supply self.old).left ≡ take n out.new ++ (supply self.new).left) }
        ensures end { IsTrue (supply self.old).tells → 0 < length out.old → IfOk result (λ n. n ≡ 0 → (supply self.old).left ≡ []) }
        ensures nothing { IsTrue (supply self.old).tells → OnErr result ((supply self.new).left ≡ (supply self.old).left) }
        ensures most { IfOk result (λ n. n ≡ min (take_plan self.old).piece (min (length out.old) (length (supply self.old).left))) }
        ensures due { is_err result ≡ is_take_due (take_plan self.old) }
        ensures plan { take_plan self.new ≡ taken_once (take_plan self.old) }
        ensures counted { (supply self.new).faults ≡ (if is_err result then raised 1 (supply self.old).faults else (supply self.old).faults) }
    {
        self.takes = self.takes.saturating_add(1);
        if self.fail_at == Some(self.takes) {
            self.faults = self.faults.saturating_add(1);
            return Err(SourceFault);
        }
        let left = &self.bytes[self.taken..];
        let count = self.piece.min(out.len()).min(left.len());
        out[..count].copy_from_slice(&left[..count]);
        self.taken += count;
        Ok(count)
    }
}
