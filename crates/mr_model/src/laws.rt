//! What callers with commits from elsewhere need.

ghost use Rattle.std.specs.Prelude.{List};
ghost use Rattle.mr_types.specs.declared.row.Commit.{Commit};
ghost use Rattle.mr_spec.specs.Lawful.{IsLawful};
ghost use Rattle.mr_schema.specs.Few.{FewColumns};

/// Lawful commits make tables of at most 255 columns, as `step` and `run_script` want.
pub fn lawful_commits_are_few()
    ensures { (commits : List Commit) → IsLawful commits → FewColumns commits }
{}
