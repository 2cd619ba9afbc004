//! What an output acknowledges: the commits of the longest list of first statements whose whole
//! replies it begins with.
#![tactic(auto)]

ghost use Rattle.std.specs.Prelude.{ℕ, List};
ghost use Rattle.mr_spec.specs.ScriptRun.{Event};
ghost use Rattle.mr_acknowledged.specs.Longest.{IsLongest, Counts, HasLongest};

/// There is a longest list of first events whose replies an output begins with.
pub fn outputs_have_a_longest_front()
    ensures { (events : List Event) (output : List ℕ) → HasLongest events output }
{}

/// The commits of that list are those that the output acknowledges, and with the next event's they
/// are the most that may be there.
pub fn longest_fronts_are_acknowledged()
    ensures { (events : List Event) (output : List ℕ) (first rest : List Event) → IsLongest events output first rest → Counts events output first rest }
{}
