//! Changes that share a claim.

ghost use Rattle.std.specs.Prelude.{List};
ghost use Rattle.mr_types.specs.declared.definition.TableDef.{TableDef};
ghost use Rattle.mr_types.specs.declared.row.Change.{Change};
ghost use Rattle.mr_types.specs.declared.row.Row.{Row};
ghost use Rattle.mr_key_claims.specs.Promises.{ClashByClaims, ShareByClaims, HeldByClaims};

/// Two rows clash, by the primary key or a unique key without NULL, exactly where they have a claim
/// in common.
pub fn rows_clash_by_their_claims()
    ensures { (def : TableDef) (r s : Row) → ClashByClaims def r s }
{}

/// Two changes share a claim exactly where their lists have one in common; those of an old row count
/// as those of a new one.
pub fn changes_share_by_their_claims()
    ensures { (def : TableDef) (c d : Change) → ShareByClaims def c d }
{}

/// A change shares a claim with one of several changes exactly where it has one of all theirs: this
/// is what 1205 is judged by.
pub fn held_claims_are_of_one_list()
    ensures { (def : TableDef) (others : List Change) (c : Change) → HeldByClaims def others c }
{}
