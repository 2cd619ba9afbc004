//! Values in one form, and claims made of them.

ghost use Rattle.std.specs.Prelude.{◌≡◌, ◌↔◌, true};
ghost use Rattle.mr_types.specs.declared.definition.TableDef.{TableDef};
ghost use Rattle.mr_types.specs.declared.kind.Kind.{Kind};
ghost use Rattle.mr_types.specs.declared.row.Row.{Row};
ghost use Rattle.mr_types.specs.declared.value.Value.{Value};
ghost use Rattle.mr_key_claims.specs.Claim.{Claim, same_claim};
ghost use Rattle.mr_key_claims.specs.Promises.{FormsAreOne, PrimaryByClaim};

/// Two values are the same in a column exactly where their forms are equal.
pub fn same_values_have_one_form()
    ensures { (kind : Kind) (a b : Value) → FormsAreOne kind a b }
{}

/// Two rows have the same primary key, or hidden number, exactly where their claims on it are equal.
pub fn primary_keys_are_claims()
    ensures { (def : TableDef) (r s : Row) → PrimaryByClaim def r s }
{}

/// The test of two claims tells whether they are equal.
pub fn claims_are_told_apart()
    ensures { (k l : Claim) → (same_claim k l ≡ true) ↔ (k ≡ l) }
{}
