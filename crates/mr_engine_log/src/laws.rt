//! What holds of what an engine log leaves.
ghost use Rattle.std.specs.Prelude.{◌≡◌, ℕ, List, ◌∷◌, [], true, Ok};
ghost use Rattle.mr_engine_log.specs.Logged.{Logged, log_of, none_logged};
ghost use Rattle.mr_engine_log.specs.Sequences.{SequencesGoOn};

/// A log that is new, with its first gate alone, leaves nothing.
pub fn a_new_log_leaves_nothing()
    ensures { (base : ℕ) → log_of base (0 ∷ []) ≡ Ok (none_logged base) }
{}

/// Where the records of a log have their sequence numbers in turn, these rise from the one before the first record on.
pub fn sequences_go_on()
    ensures { (base : ℕ) (file : List ℕ) (l : Logged) → log_of base file ≡ Ok l → l.in_turn ≡ true → SequencesGoOn base l }
{}
