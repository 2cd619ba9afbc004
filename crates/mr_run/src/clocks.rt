//! The values that statements are served at.

ghost use Rattle.std.specs.Prelude.{◌≡◌, ◌+◌, ℕ, IsTrue};
ghost use Rattle.mr_run.specs.Clocks.{clock_of, Goes};

use mr_base::Clock;

/// The given value, or the clock's next one where none is given.
pub(crate) fn next_value<C: Clock>(given: Option<u64>, clock: &mut C) -> u64
    ensures value { IsTrue (clock_of given (C.clock clock.old)).tells → result ≡ (clock_of given (C.clock clock.old)).values 0 }
    ensures next { IsTrue (clock_of given (C.clock clock.old)).tells → (k : ℕ) → (clock_of given (C.clock clock.new)).values k ≡ (clock_of given (C.clock clock.old)).values (k + 1) }
    ensures goes { Goes given (C.clock clock.old) (C.clock clock.new) }
{
    match given {
        Some(value) => value,
        None => clock.now(),
    }
}
