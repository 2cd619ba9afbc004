//! The columns that a condition names.

ghost use Rattle.std.specs.Prelude.{◌≡◌, Some};
ghost use Rattle.std.specs.List.{list_any};
ghost use Rattle.mr_types.specs.Values.{Answers};
ghost use Rattle.mr_spec.specs.Truth.{where_of, is_unknown as unknown_in, known_columns as known};
ghost use Rattle.mr_bind.specs.Naming.{some_named};

use crate::columns::is_unknown;
use mr_types::{Expr, Refused, TableDef};

/// Whether the condition names a column that isn't there.
fn names_unknown(def: &TableDef, expr: &Expr) -> bool
    ensures { result ≡ some_named (λ n. unknown_in def.now n.column) expr.now }
{
    match expr {
        Expr::Compare(name, _, _) => is_unknown(def, name.as_slice()),
        Expr::IsNull(name) => is_unknown(def, name.as_slice()),
        Expr::Between(name, _, _) => is_unknown(def, name.as_slice()),
        Expr::OneOf(name, _) => is_unknown(def, name.as_slice()),
        Expr::Not(part) => names_unknown(def, part.get()),
        Expr::And(parts) => {
            for part in parts.as_slice() {
                if names_unknown(def, part) {
                    return true;
                }
            }
            false
        }
        Expr::Or(parts) => {
            for choice in parts.as_slice() {
                if names_unknown(def, choice) {
                    return true;
                }
            }
            false
        }
    }
}

/// 1054 exactly where a condition names a column that isn't there.
#[tactic(auto, using(crate::proofs::Named::known_by))]
pub fn known_columns(def: &TableDef, expr: &Expr) -> Result<(), Refused>
    ensures { Answers result (known def.now (where_of (Some expr.now))) }
{
    if names_unknown(def, expr) {
        return Err(Refused::Sql(1054));
    }
    Ok(())
}
