//! The plan of a condition.

ghost use Rattle.std.specs.Prelude.{◌≡◌, ℕ, List, [], IfOk, None, true};
ghost use Rattle.std.specs.Option.{option_copied};
ghost use Rattle.mr_types.specs.declared.row.Row.{Row};
ghost use Rattle.mr_types.specs.Rows.{IsRowOf};
ghost use Rattle.mr_memcmp.specs.Parts.{row_key};
ghost use Rattle.mr_entry.specs.Entry.{entry_places};
ghost use Rattle.mr_ranges.specs.Ranges.{in_some, AreApart};
ghost use Rattle.mr_plan.specs.Columns.{keeps};
ghost use Rattle.mr_plan.specs.Keys.{held, index_says};
ghost use Rattle.mr_plan.specs.Choice.{is_covering as does_cover, chosen as choice_of};

use crate::choice::{chosen, is_covering};
use crate::keys::index_ranges;
use crate::outline::Plan;
use mr_base::Memory;
use mr_entry::places_of;
use mr_spec::Bound;
use mr_types::TableDef;
use std::alloc::Global;

/// The plan of a condition, or of all rows where there is none, for the needed columns, one bit per
/// column. A forced index is used; else the primary key where `=` fixes each of its columns, else the
/// index with the most columns that `=` fixes, of those whose first column the condition says something
/// of, one that covers before one that doesn't; else the primary key. The ranges are in order and apart. The key of each row whose condition is true lies in the ranges,
/// and each row whose key lies there meets what the condition says of the index's first column, and
/// behind columns that `=` fixes of the next one.
pub fn plan(
    alloc: Global,
    def: &TableDef,
    expr: Option<&Bound>,
    needed: u64,
    forced: Option<usize>,
) -> Result<Plan, Memory>
    ensures index { IfOk result (λ plan. plan.index ≡ choice_of def.now (option_copied expr.entry) needed forced) }
    ensures covers { IfOk result (λ plan. plan.covers ≡ does_cover def.now plan.index needed) }
    ensures apart { IfOk result (λ plan. AreApart plan.ranges) }
    // The ranges hold just the keys that the condition leaves, whether rows have them or not.
    ensures exact { IfOk result (λ plan. (key : List ℕ) → in_some key plan.ranges ≡ index_says def.now (option_copied expr.entry) [] (entry_places def.now plan.index) key) }
    ensures includes { IfOk result (λ plan. (row : Row) → IsRowOf def.now row → keeps def.now (option_copied expr.entry) row ≡ true → in_some (row_key None def.now (entry_places def.now plan.index) row) plan.ranges ≡ true) }
    ensures tight { IfOk result (λ plan. (row : Row) → IsRowOf def.now row → in_some (row_key None def.now (entry_places def.now plan.index) row) plan.ranges ≡ true → held def.now (option_copied expr.entry) (entry_places def.now plan.index) row ≡ true) }
{
    let index = chosen(alloc, def, expr, needed, forced)?;
    let places = places_of(alloc, def, index)?;
    let ranges = index_ranges(alloc, def, places.as_slice(), expr)?;
    Ok(Plan {
        index,
        ranges,
        covers: is_covering(def, index, needed),
    })
}
