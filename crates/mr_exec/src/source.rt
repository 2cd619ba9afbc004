//! Rows, one after another, from wherever they come.

ghost use Rattle.std.specs.Prelude.{◌≡◌, ◌<◌, ℕ, List, IsTrue, Option, Some, IsSome, IfSome, IfOk, IfErr, is_some};
ghost use Rattle.mr_base.specs.declared.stop.Stop.{Stop};
ghost use Rattle.mr_types.specs.declared.row.Row.{Row};
ghost use Rattle.mr_exec.specs.Sources.{Stepped};

use mr_base::{Memory, Stop};
use mr_expr::Fields;
use mr_types::Row;
use std::alloc::Global;

/// Gives rows of a table in any order. It stands in front of the first one, on one, or behind the
/// last one.
pub trait RowSource: Fields {
    /// The rows that are still to come.
    ghost rows: { Self → List Row };

    /// How many steps are left at most.
    ghost steps: { Self → ℕ };

    /// Whether what it gives is known: whether its device tells, and what it walks over is whole.
    ghost told: { Self → Type 0 };

    /// What steps may lead to: what has become of all that it borrows.
    ghost reaches: { Self → Self → Type 0 };

    /// The stop that a step ended in, where one did.
    ghost stopped: { Self → Option Stop };

    /// That steps from here to there may end in this stop.
    ghost stops: { Self → Self → Stop → Type 0 };

    /// Goes to the next row; false at the end. Takes memory.
    fn step(&mut self) -> Result<bool, Stop>
        ensures reaches { reaches self.old self.new }
        ensures def { Self.def self.new ≡ Self.def self.old }
        ensures stops { IfErr result (λ stop. stops self.old self.new stop) }
        ensures stopped { IfErr result (λ stop. stopped self.new ≡ Some stop) }
        ensures going { IfOk result (λ more. stopped self.new ≡ stopped self.old) }
        ensures stands { IfOk result (λ more. is_some (Self.current self.new) ≡ more) }
        ensures steps { IfOk result (λ more. IsTrue more → steps self.new < steps self.old) }
        ensures told { told self.old → IfOk result (λ more. told self.new) }
        ensures moved { told self.old → IfOk result (λ more. Stepped more (rows self.old) (Self.current self.new) (rows self.new)) };

    /// The hidden number of the row that it stands on, None where the table has a primary key.
    fn hidden(&self) -> Option<u64>
        requires { IsSome (Self.current self.now) }
        ensures { IfSome (Self.current self.now) (λ r. result ≡ r.hidden) };

    /// A copy of the row that it stands on.
    fn row(&self, alloc: Global) -> Result<Row, Memory>
        requires { IsSome (Self.current self.now) }
        ensures { IfSome (Self.current self.now) (λ r. IfOk result (λ copy. copy ≡ r)) };

    /// No step leads to where it stands.
    ghost stays: { (s : Self) → reaches s s };

    /// Steps, and then more of them.
    ghost goes_on: { (a b c : Self) → reaches a b → reaches b c → reaches a c };

    /// A stop of later steps is one of all steps.
    ghost stops_since: { (a b c : Self) (stop : Stop) → reaches a b → stops b c stop → stops a c stop };
}
