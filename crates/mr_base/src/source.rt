//! Bytes and moments that come from outside.
ghost use Rattle.std.specs.Prelude.{◌≡◌, ◌≤◌, ◌<◌, ◌+◌, ◌++◌, [], ℕ, IsTrue, length, take, IfOk, OnErr};
ghost use Rattle.mr_base.specs.Disk.{HasRisen};
ghost use Rattle.mr_base.specs.Source.{SourceState, ClockState};

use crate::stop::SourceFault;

/// A source of bytes, which are taken in pieces.
pub trait Source {
    ghost source: { Self → SourceState };

    /// Moves a front of what is left into the front of `out` and answers its length, which is 0 exactly at the end where
    /// `out` isn't empty. The rest of `out` is left in no known state. A fault takes nothing.
    fn take(&mut self, out: &mut [u8]) -> Result<usize, SourceFault>
        ensures tells { (source self.new).tells ≡ (source self.old).tells }
        ensures later { (source self.old).faults ≤ (source self.new).faults }
        ensures cause { OnErr result (HasRisen (source self.old).faults (source self.new).faults) }
        ensures fits { IfOk result (λ n. n ≤ length out.old) }
        ensures moved { IsTrue (source self.old).tells → IfOk result (λ n. (source self.old).left ≡ take n out.new ++ (source self.new).left) }
        ensures end { IsTrue (source self.old).tells → 0 < length out.old → IfOk result (λ n. n ≡ 0 → (source self.old).left ≡ []) }
        ensures nothing { IsTrue (source self.old).tells → OnErr result ((source self.new).left ≡ (source self.old).left) };
}

/// A clock.
pub trait Clock {
    ghost clock: { Self → ClockState };

    /// The next value, in seconds since 1970.
    fn now(&mut self) -> u64
        ensures tells { (clock self.new).tells ≡ (clock self.old).tells }
        ensures value { IsTrue (clock self.old).tells → result ≡ (clock self.old).values 0 }
        ensures next { IsTrue (clock self.old).tells → (k : ℕ) → (clock self.new).values k ≡ (clock self.old).values (k + 1) };
}
