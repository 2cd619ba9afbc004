//! The rows that a SELECT holds while it goes through a source.

ghost use Rattle.std.specs.Prelude.{◌≡◌, ◌≤◌, ◌+◌, ◌*◌, ◌++◌, ◌∷◌, [], List, true, false, length, get_or, Some, IsSome, IfSome, OnOk};
ghost use Rattle.std.specs.Ordering.{is_lt};
ghost use Rattle.std.specs.declared.cmp.Ordering.{Ordering as AnOrdering};
ghost use Rattle.mr_types.specs.declared.row.Row.{Row as ARow};
ghost use Rattle.mr_bound.specs.BoundSelects.{reply_by as reply_order};
ghost use Rattle.mr_exec.specs.Holding.{Holds};

use crate::lent::reply_by;
use crate::sorting::sort_rows;
use crate::source::RowSource;
use mr_base::Memory;
use mr_bound::BoundOrder;
use mr_types::{Row, TableDef};
use std::alloc::Global;

/// Rows in the order in which they came: all of them, or some among which those that LIMIT looks at
/// are the first.
#[derive(Drop)]
pub(crate) struct Held {
    pub rows: Vec<Row>,
    /// Whether the rows were cut to those that are looked at: of the ones that are looked at now
    /// none stands behind the last of these.
    pub is_bound: bool,
}

fn push_row(rows: &mut Vec<Row>, row: Row) -> Result<(), Memory>
    ensures { OnOk result (rows.new.items ≡ rows.old.items ++ row ∷ []) }
{
    match rows.push(row) {
        Ok(()) => Ok(()),
        Err(_) => Err(Memory),
    }
}

/// Whether the row that the source stands on is not before the row at a place, which is there.
fn is_behind<S: RowSource>(
    source: &S,
    def: &TableDef,
    order: &[BoundOrder],
    rows: &[Row],
    at: usize,
) -> bool
    requires some { IsSome (S.current source.now) }
    requires of { def.now ≡ S.def source.now }
    ensures { IfSome (S.current source.now) (λ r. result ≡ true → (d : ARow) → is_lt (reply_order def.now order.now r (get_or rows.now at d)) ≡ false) }
{
    match rows.get(at) {
        None => false,
        Some(last) => !reply_by::<S>(source, def, order, last).is_lt(),
    }
}

impl Held {
    /// Without rows.
    pub(crate) fn new(alloc: Global) -> Held
        ensures rows { result.rows.items ≡ [] }
        ensures is_bound { result.is_bound ≡ false }
    {
        Held {
            rows: Vec::new(alloc),
            is_bound: false,
        }
    }

    /// Drops the rows behind those that are looked at, once twice as many are held.
    fn cut(&mut self, def: &TableDef, order: &[BoundOrder], most: u64) -> Result<(), Memory>
        ensures holds { OnOk result ((seen : List ARow) → Holds (reply_order def.now order.now) (Some most) self.old seen → Holds (reply_order def.now order.now) (Some most) self.new seen) }
        ensures few { OnOk result (length self.new.rows.items ≤ 2 * most + 1) }
    {
        let most = most as usize;
        if self.rows.len() / 2 >= most {
            sort_rows(def, order, &mut self.rows)?;
            self.rows.truncate(most);
            self.is_bound = most > 0;
        }
        Ok(())
    }

    fn make_room(
        &mut self,
        def: &TableDef,
        order: &[BoundOrder],
        reach: Option<u64>,
    ) -> Result<(), Memory>
        ensures holds { OnOk result ((seen : List ARow) → Holds (reply_order def.now order.now) reach self.old seen → Holds (reply_order def.now order.now) reach self.new seen) }
        ensures few { OnOk result (IfSome reach (λ most. length self.new.rows.items ≤ 2 * most + 1)) }
    {
        match reach {
            None => Ok(()),
            Some(most) => self.cut(def, order, most),
        }
    }

    /// Holds one more row, which comes behind all those before it. Of rows behind those that are
    /// looked at no more than as many again and two are held.
    pub(crate) fn add(
        &mut self,
        def: &TableDef,
        order: &[BoundOrder],
        reach: Option<u64>,
        row: Row,
    ) -> Result<(), Memory>
        ensures holds { OnOk result ((seen : List ARow) → Holds (reply_order def.now order.now) reach self.old seen → Holds (reply_order def.now order.now) reach self.new (seen ++ row ∷ [])) }
        ensures few { OnOk result (IfSome reach (λ most. length self.new.rows.items ≤ 2 * most + 2)) }
    {
        self.make_room(def, order, reach)?;
        push_row(&mut self.rows, row)?;
        Ok(())
    }

    /// Whether the row that the source stands on needn't be held.
    pub(crate) fn passes<S: RowSource>(
        &self,
        source: &S,
        def: &TableDef,
        order: &[BoundOrder],
        reach: Option<u64>,
    ) -> bool
        requires some { IsSome (S.current source.now) }
        requires of { def.now ≡ S.def source.now }
        ensures { IfSome (S.current source.now) (λ r. result ≡ true → (seen : List ARow) → Holds (reply_order def.now order.now) reach self.now seen → Holds (reply_order def.now order.now) reach self.now (seen ++ r ∷ [])) }
    {
        match reach {
            None => false,
            Some(most) => match most.checked_sub(1) {
                None => true,
                Some(at) => {
                    self.is_bound
                        && is_behind::<S>(source, def, order, self.rows.as_slice(), at as usize)
                }
            },
        }
    }
}
