//! What follows from the definitions, for callers to cite.

ghost use Rattle.std.specs.Prelude.{◌≡◌, ℕ, ◌≤◌, List, Ok};
ghost use Rattle.mr_types.specs.declared.definition.IndexDef.{IndexDef};
ghost use Rattle.mr_binlog.specs.Commits.{HoldsOneMore};
ghost use Rattle.mr_types.specs.declared.row.Commit.{Commit};
ghost use Rattle.mr_schema.specs.DefinitionFitting.{KeyFits};
ghost use Rattle.mr_schema.specs.Few.{FewInBody};
ghost use Rattle.mr_binlog.specs.CommitForm.{reads_commit};
ghost use Rattle.mr_binlog.specs.CommitPromises.{NoFront};

/// No commit's bytes are a proper front of another's, and the bytes tell the commit.
pub fn no_commit_is_a_front()
    ensures { (c d : Commit) (rest : List ℕ) → NoFront c d rest }
{}

/// Where records hold these commits with their places, they and one more body, which is this commit,
/// hold these and it, at the place where the records end.
pub fn one_commit_more()
    ensures { (at : ℕ) (bodies : List (List ℕ)) (body : List ℕ) (cs : List (ℕ × Commit)) (c : Commit) → HoldsOneMore at bodies body cs c }
{}

/// A commit that was read makes no table of more than 255 columns.
pub fn read_commits_are_few()
    ensures { (bytes : List ℕ) (c : Commit) → reads_commit bytes ≡ Ok c → FewInBody c.body }
{}

/// A key that has a form as bytes beside its table's columns has one in a commit.
pub fn keys_of_tables_fit()
    ensures { (limit : ℕ) (key : IndexDef) → limit ≤ 256 → KeyFits limit key → KeyFits 256 key }
{}
