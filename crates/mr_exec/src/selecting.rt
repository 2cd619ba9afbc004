//! SELECT over the rows of a source.

ghost use Rattle.std.specs.Prelude.{◌≡◌, ◌∷◌, [], is_some, false, filter, map, None, IfOk, IfErr};
ghost use Rattle.mr_spec.specs.Select.{listed as listed_in, limited as within_limit, sorted as in_order};
ghost use Rattle.mr_bound.specs.BoundSelects.{selected_at, keeps as kept_in, aggregate_of, by_key, reply_by as reply_order};
ghost use Rattle.mr_exec.specs.Sources.{OrMemory, EndsBy};
ghost use Rattle.mr_exec.specs.Gathering.{value_found};

use crate::found::{Found, values_of};
use crate::gathering::{found_rows, kept_rows};
use crate::listing::lines;
use crate::sorting::{limited, reach_of, sort_rows};
use crate::source::RowSource;
use mr_base::{Memory, Stop};
use mr_bound::{BoundAggregate, BoundColumns, BoundSelect};
use mr_spec::Bound;
use mr_types::{Row, RowTable, TableDef};
use std::alloc::Global;

/// The listed columns of the rows in the order of the reply, within LIMIT.
fn listing(
    alloc: Global,
    def: &TableDef,
    select: &BoundSelect,
    places: &[u8],
    rows: &mut Vec<Row>,
) -> Result<RowTable, Memory>
    ensures { IfOk result (λ table. table ≡ map (listed_in places.now) (within_limit select.now.skip select.now.most (in_order (reply_order def.now select.now.order) rows.old.items))) }
{
    sort_rows(def, select.order.as_slice(), rows)?;
    let within = limited(select.skip, select.most, rows.as_slice());
    let table = lines(alloc, places, within)?;
    Ok(table)
}

/// One row: the values of what the aggregates have found.
fn totals(alloc: Global, all: &[Found]) -> Result<RowTable, Memory>
    ensures { IfOk result (λ table. table ≡ map value_found all.now ∷ []) }
{
    let mut table = RowTable::new(alloc);
    table.push(values_of(alloc, all)?)?;
    Ok(table)
}

/// The listed columns of the rows to come that WHERE keeps, in the order of the reply, within LIMIT.
fn listed<S: RowSource>(
    alloc: Global,
    source: &mut S,
    def: &TableDef,
    select: &BoundSelect,
    places: &[u8],
) -> Result<RowTable, Stop>
    requires { def.now ≡ S.def source.old }
    ensures reaches { S.reaches source.old source.new }
    ensures stops { IfErr result (OrMemory (S.stops source.old source.new)) }
    ensures ends { S.stopped source.old ≡ None → IfErr result (EndsBy (S.stopped source.new)) }
    ensures whole { S.stopped source.old ≡ None → IfOk result (λ table. S.stopped source.new ≡ None) }
    ensures over { S.told source.old → IfOk result (λ table. S.told source.new × (S.rows source.new ≡ []) × (is_some (S.current source.new) ≡ false)) }
    ensures reply { S.told source.old → IfOk result (λ table. table ≡ map (listed_in places.now) (within_limit select.now.skip select.now.most (in_order (reply_order def.now select.now.order) (filter (kept_in (S.def source.old) select.now.condition) (S.rows source.old))))) }
{
    let order = select.order.as_slice();
    let reach = reach_of(select.skip, select.most);
    let mut rows = kept_rows::<S>(alloc, source, def, &select.condition, order, reach)?;
    let table = listing(alloc, def, select, places, &mut rows)?;
    Ok(table)
}

/// One row of aggregates over the rows to come that WHERE keeps.
fn aggregated<S: RowSource>(
    alloc: Global,
    source: &mut S,
    def: &TableDef,
    condition: &Option<Bound>,
    aggregates: &[BoundAggregate],
) -> Result<RowTable, Stop>
    requires { def.now ≡ S.def source.old }
    ensures reaches { S.reaches source.old source.new }
    ensures stops { IfErr result (OrMemory (S.stops source.old source.new)) }
    ensures ends { S.stopped source.old ≡ None → IfErr result (EndsBy (S.stopped source.new)) }
    ensures whole { S.stopped source.old ≡ None → IfOk result (λ table. S.stopped source.new ≡ None) }
    ensures over { S.told source.old → IfOk result (λ table. S.told source.new × (S.rows source.new ≡ []) × (is_some (S.current source.new) ≡ false)) }
    ensures reply { S.told source.old → IfOk result (λ table. table ≡ map (aggregate_of def.now (by_key def.now (filter (kept_in (S.def source.old) condition.now) (S.rows source.old)))) aggregates.now ∷ []) }
{
    let all = found_rows::<S>(alloc, source, def, condition, aggregates)?;
    let table = totals(alloc, all.as_slice())?;
    Ok(table)
}

/// What SELECT gives of the rows to come, in whatever order they come: ties, and rows without ORDER
/// BY, go by the primary key or the hidden number. It ends in a stop of the source, or for want of
/// memory. Of rows that LIMIT leaves out no more than as many again as it looks at are held at once,
/// and aggregates hold one row each.
pub fn select<S: RowSource>(
    alloc: Global,
    source: &mut S,
    def: &TableDef,
    select: &BoundSelect,
) -> Result<RowTable, Stop>
    requires { def.now ≡ S.def source.old }
    ensures reaches { S.reaches source.old source.new }
    ensures stops { IfErr result (OrMemory (S.stops source.old source.new)) }
    ensures ends { S.stopped source.old ≡ None → IfErr result (EndsBy (S.stopped source.new)) }
    ensures whole { S.stopped source.old ≡ None → IfOk result (λ table. S.stopped source.new ≡ None) }
    ensures over { S.told source.old → IfOk result (λ table. S.told source.new × (S.rows source.new ≡ []) × (is_some (S.current source.new) ≡ false)) }
    ensures reply { S.told source.old → IfOk result (λ table. table ≡ selected_at def.now select.now (S.rows source.old)) }
{
    match &select.columns {
        BoundColumns::Places(places) => listed::<S>(alloc, source, def, select, places.as_slice()),
        BoundColumns::Aggregates(aggregates) => {
            aggregated::<S>(alloc, source, def, &select.condition, aggregates.as_slice())
        }
    }
}
