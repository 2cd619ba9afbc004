//! A clock in memory.
ghost use Rattle.std.specs.Prelude.{◌≡◌, ◌≤◌, ◌+◌, ℕ, IsTrue, length, IfOk};

use mr_base::{Clock, Memory};
use std::alloc::Global;

/// A clock that gives a list of values in turn, and its last one, or 0, from then on.
#[derive(Drop)]
pub struct ListClock {
    values: Vec<u64>,
    next: usize,
    ghost within: { next ≤ length values.items },
}

impl ListClock {
    ghost use Rattle.mr_memhost.specs.Supplies.{dial, value_at};

    pub fn new(alloc: Global, values: &[u64]) -> Result<ListClock, Memory>
        ensures values { IfOk result (λ c. (k : ℕ) → (dial c).values k ≡ value_at values.now k) }
        ensures tells { IfOk result (λ c. IsTrue (dial c).tells) }
    {
        Ok(ListClock {
            values: values.to_vec(alloc)?,
            next: 0,
        })
    }
}

impl Clock for ListClock {
    ghost use Rattle.mr_memhost.specs.Supplies.{dial};

    ghost clock = { dial };

    fn now(&mut self) -> u64 {
        let last = self.values.len();
        if self.next < last {
            let value = self.values[self.next];
            self.next += 1;
            value
        } else if last == 0 {
            0
        } else {
            self.values[last - 1]
        }
    }
}
