//! Claims of changes on the values of keys.

ghost use Rattle.std.specs.Prelude.{◌≡◌};
ghost use Rattle.std.specs.List.{list_any};
ghost use Rattle.mr_spec.specs.Rows.{clashes as clash, rows_of};
ghost use Rattle.mr_spec.specs.Claims.{share_claim as shared, has_claim_in as claim_in};

use crate::rows::clashes;
use mr_types::{Change, Row, TableDef};

/// Whether a row has the values of one of a change's rows in some key.
fn clashes_with_change(def: &TableDef, row: &Row, change: &Change) -> bool
    ensures { result ≡ list_any (λ s. clash def.now row.now s) (rows_of change.now) }
{
    match change {
        Change::Insert { new, .. } => clashes(def, row, new),
        Change::Update { old, new, .. } => clashes(def, row, old) || clashes(def, row, new),
        Change::Delete { old, .. } => clashes(def, row, old),
    }
}

/// Whether two changes of a table have a claim in common.
pub fn share_claim(def: &TableDef, change: &Change, other: &Change) -> bool
    ensures { result ≡ shared def.now change.now other.now }
{
    match change {
        Change::Insert { new, .. } => clashes_with_change(def, new, other),
        Change::Update { old, new, .. } => {
            clashes_with_change(def, old, other) || clashes_with_change(def, new, other)
        }
        Change::Delete { old, .. } => clashes_with_change(def, old, other),
    }
}

/// Whether one of these changes has a claim in common with the change.
pub fn has_claim_in(def: &TableDef, others: &[Change], change: &Change) -> bool
    ensures { result ≡ claim_in def.now others.now change.now }
{
    others.iter().any(|other| share_claim(def, change, other))
}
