//! Rows of a source, gathered as SELECT needs them.

ghost use Rattle.std.specs.Prelude.{◌≡◌, [], is_some, false, filter, map, None, IfOk, IfErr};
ghost use Rattle.mr_bound.specs.BoundSelects.{keeps as kept_in, reply_by as reply_order};
ghost use Rattle.mr_exec.specs.Sources.{OrMemory, EndsBy};
ghost use Rattle.mr_exec.specs.Gathering.{StandsFor, found_in};

use crate::found::{Found, find_each, none_found};
use crate::held::Held;
use crate::source::RowSource;
use crate::steps::next_kept;
use mr_base::Stop;
use mr_bound::{BoundAggregate, BoundOrder};
use mr_spec::Bound;
use mr_types::{Row, TableDef};
use std::alloc::Global;

/// The rows to come that WHERE keeps, or some of which so many as are looked at are the first in the
/// order of the reply. Only rows that WHERE keeps are copied, and none that stands behind those.
pub(crate) fn kept_rows<S: RowSource>(
    alloc: Global,
    source: &mut S,
    def: &TableDef,
    condition: &Option<Bound>,
    order: &[BoundOrder],
    reach: Option<u64>,
) -> Result<Vec<Row>, Stop>
    requires { def.now ≡ S.def source.old }
    ensures reaches { S.reaches source.old source.new }
    ensures stops { IfErr result (OrMemory (S.stops source.old source.new)) }
    ensures ends { S.stopped source.old ≡ None → IfErr result (EndsBy (S.stopped source.new)) }
    ensures whole { S.stopped source.old ≡ None → IfOk result (λ kept. S.stopped source.new ≡ None) }
    ensures over { S.told source.old → IfOk result (λ kept. S.told source.new × (S.rows source.new ≡ []) × (is_some (S.current source.new) ≡ false)) }
    ensures kept { S.told source.old → IfOk result (λ kept. StandsFor (reply_order def.now order.now) reach kept.items (filter (kept_in (S.def source.old) condition.now) (S.rows source.old))) }
{
    let mut held = Held::new(alloc);
    'walk: while next_kept::<S>(source, condition)? {
        if !held.passes::<S>(source, def, order, reach) {
            let row = source.row(alloc)?;
            held.add(def, order, reach, row)?;
        }
    }
    Ok(held.rows)
}

/// What aggregates find in the rows to come that WHERE keeps. Each holds one row at the most.
pub(crate) fn found_rows<S: RowSource>(
    alloc: Global,
    source: &mut S,
    def: &TableDef,
    condition: &Option<Bound>,
    aggregates: &[BoundAggregate],
) -> Result<Vec<Found>, Stop>
    requires { def.now ≡ S.def source.old }
    ensures reaches { S.reaches source.old source.new }
    ensures stops { IfErr result (OrMemory (S.stops source.old source.new)) }
    ensures ends { S.stopped source.old ≡ None → IfErr result (EndsBy (S.stopped source.new)) }
    ensures whole { S.stopped source.old ≡ None → IfOk result (λ all. S.stopped source.new ≡ None) }
    ensures over { S.told source.old → IfOk result (λ all. S.told source.new × (S.rows source.new ≡ []) × (is_some (S.current source.new) ≡ false)) }
    ensures found { S.told source.old → IfOk result (λ all. all.items ≡ map (found_in def.now (filter (kept_in (S.def source.old) condition.now) (S.rows source.old))) aggregates.now) }
{
    let mut all = none_found(alloc, aggregates)?;
    'walk: while next_kept::<S>(source, condition)? {
        find_each::<S>(alloc, source, def, &mut all)?;
    }
    Ok(all)
}
