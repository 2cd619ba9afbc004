//! The bytes of lawful commits, and the 64 bits of their numbers.

ghost use Rattle.std.specs.Prelude.{◌≡◌, ℕ, ◌≤◌, ◌<◌, ◌^◌, true, List, ◌++◌, length, nat_lt, Result};
ghost use Rattle.std.specs.List.{list_all};
ghost use Rattle.mr_types.specs.declared.row.Commit.{Commit};
ghost use Rattle.mr_types.specs.declared.statement.Statement.{Statement};
ghost use Rattle.mr_binlog.specs.CommitFitting.{CommitFits, NumbersFit};
ghost use Rattle.mr_binlog.specs.CommitForm.{commit_bytes};
ghost use Rattle.mr_spec.specs.Lawful.{IsLawful};
ghost use Rattle.mr_spec.specs.Replay.{reopened, numbers_after};
ghost use Rattle.mr_spec.specs.ScriptRun.{world_after, world_behind, run_of, added_by};
ghost use Rattle.mr_spec.specs.World.{World};
ghost use Rattle.mr_sound.specs.Sound.{IsIn, IsSound, IsSpelled};
ghost use Rattle.mr_forms.specs.Forms.{HasRoom, IsOf64Bits, AreRead};

/// A lawful commit is of at most 2^29 bytes, which a record of the binary log may hold.
pub fn lawful_commits_are_short()
    ensures { (commits : List Commit) (c : Commit) → IsLawful commits → IsIn c commits → length (commit_bytes c) ≤ 2 ^ 29 }
{}

/// A lawful commit has a form as bytes, where its moment, hidden numbers and stamps are of 64 bits.
pub fn lawful_commits_have_a_form()
    ensures { (commits : List Commit) (c : Commit) → IsLawful commits → IsIn c commits → NumbersFit c → CommitFits c }
{}

/// A world's numbers are of 64 bits at the opening of commits whose numbers are, and stay so behind
/// each statement at a moment of 64 bits, as long as no next hidden number passes 2^64. So each
/// commit of such a sound world has a form.
pub fn numbers_stay_of_64_bits()
    ensures opened { (commits : List Commit) → ((c : Commit) → IsIn c commits → NumbersFit c) → IsOf64Bits (reopened commits) }
    ensures after { (w : World) (s : Result Statement ℕ) (clock : ℕ) → IsSpelled s → clock < 2 ^ 64 → IsSound w → IsOf64Bits w → HasRoom (world_after w s clock) → IsOf64Bits (world_after w s clock) }
    ensures form { (w : World) (c : Commit) → IsSound w → IsOf64Bits w → IsIn c w.commits → CommitFits c }
{}

/// Each commit of a run has a form as bytes, where the clock tells moments of 64 bits and the next
/// hidden numbers are at most 2^62 at the run's start: of at most 2^40 statements from a sound world,
/// or of a script of at most 2^30 bytes on lawful commits.
pub fn commits_of_runs_have_a_form()
    ensures statements { (w : World) (ss : List (Result Statement ℕ)) (now : ℕ → ℕ) (c : Commit) → AreRead ss → ((k : ℕ) → now k < 2 ^ 64) → length ss ≤ 2 ^ 40 → ((n : List ℕ) → w.numbers n ≤ 2 ^ 62) → IsSound w → IsOf64Bits w → IsIn c (world_behind w ss now).commits → CommitFits c }
    ensures script { (commits : List Commit) (script : List ℕ) (now : ℕ → ℕ) (c : Commit) → list_all (λ b. nat_lt b 256) script ≡ true → length script ≤ 2 ^ 30 → ((k : ℕ) → now k < 2 ^ 64) → IsLawful commits → ((c : Commit) → IsIn c commits → NumbersFit c) → ((n : List ℕ) → numbers_after (λ name. 1) commits n ≤ 2 ^ 62) → IsIn c (commits ++ added_by (run_of script now (reopened commits))) → CommitFits c }
{}

/// What has a form as bytes, as each commit that was read from a log, has numbers of 64 bits.
pub fn forms_have_numbers_of_64_bits()
    ensures { (c : Commit) → CommitFits c → NumbersFit c }
{}
