//! Rows of a list, one after another.

ghost use Rattle.std.specs.Prelude.{◌≡◌, ◌-◌, ◌≤◌, true, false, drop, length, refl, None, IsSome, ⊤};
ghost use Rattle.std.proofs.Common.{◌∙◌};
ghost use Rattle.mr_types.specs.FieldValues.{is_held_by};
ghost use Rattle.mr_spec.specs.Rows.{kind_at as kind_in};
ghost use Rattle.mr_exec.specs.Lists.{values_fit, rows_fit, next_at, stood_on};

use crate::orders::kind_at;
use crate::source::RowSource;
use mr_base::{Memory, Stop};
use mr_expr::Fields;
use mr_types::{FieldRef, Kind, Row, TableDef, Value};
use std::alloc::Global;

/// Whether a column of this kind has such values.
fn is_held(kind: Kind, value: &Value) -> bool
    ensures { result ≡ is_held_by kind value.now }
{
    match kind {
        Kind::VarChar(_, _) => match value {
            Value::Bytes(_) => false,
            Value::Null | Value::Number(_) | Value::Text(_) => true,
        },
        _ => match value {
            Value::Text(_) => false,
            Value::Null | Value::Number(_) | Value::Bytes(_) => true,
        },
    }
}

fn is_fit(def: &TableDef, values: &[Value]) -> bool
    ensures { result ≡ values_fit def.now 0 values.now }
{
    for (i, value) in values.iter().enumerate() {
        if !is_held(kind_at(def, i), value) {
            return false;
        }
    }
    true
}

/// Whether each value of the rows stands in a column whose kind has such values: texts where it is
/// one of texts, bytes elsewhere.
pub fn are_fit(def: &TableDef, rows: &[Row]) -> bool
    ensures { result ≡ rows_fit def.now rows.now }
{
    for row in rows {
        if !is_fit(def, row.fields.as_slice()) {
            return false;
        }
    }
    true
}

/// The rows of a list in the order in which they stand there. It tells everything, and no step
/// fails.
#[derive(Drop)]
pub struct ListRows<'a> {
    def: &'a TableDef,
    rows: &'a [Row],
    /// The place of the row that it stands on, else of the next one.
    at: usize,
    stands: bool,
    ghost within: { next_at at stands ≤ length rows.now },
    ghost held: { rows_fit def.now rows.now ≡ true },
}

impl<'a> ListRows<'a> {
    /// In front of the first row.
    pub fn new(def: &'a TableDef, rows: &'a [Row]) -> ListRows<'a>
        requires { rows_fit def.now rows.now ≡ true }
        ensures def { result.def.now ≡ def.now }
        ensures rows { result.rows.now ≡ rows.now }
        ensures at { result.at ≡ 0 }
        ensures stands { result.stands ≡ false }
    {
        ListRows {
            def,
            rows,
            at: 0,
            stands: false,
        }
    }

    fn next(&self) -> usize
        ensures { result ≡ next_at self.now.at self.now.stands }
    {
        if self.stands { self.at + 1 } else { self.at }
    }

    fn current(&self) -> &'a Row
        requires { IsSome (stood_on self.now.rows.now self.now.at self.now.stands) }
        ensures { stood_on self.now.rows.now self.now.at self.now.stands ≡ Some result.now }
    {
        &self.rows[self.at]
    }
}

impl<'a> Fields for ListRows<'a> {
    ghost def = { λ s. s.def.now };

    ghost current = { λ s. stood_on s.rows.now s.at s.stands };

    fn field(&self, column: u8) -> FieldRef<'_> {
        match self.current().fields.get(column as usize) {
            Some(value) => value.as_field(),
            None => FieldRef::Null,
        }
    }

    fn kind(&self, column: u8) -> Kind {
        kind_at(self.def, column as usize)
    }
}

impl<'a> RowSource for ListRows<'a> {
    ghost rows = { λ s. drop (next_at s.at s.stands) s.rows.now };

    ghost steps = { λ s. length s.rows.now - next_at s.at s.stands };

    ghost told = { λ s. ⊤ };

    ghost reaches = { λ a b. (b.def.now ≡ a.def.now) × (b.rows.now ≡ a.rows.now) };

    ghost stopped = { λ s. None };

    ghost stops = { λ a b stop. ⊥ };

    fn step(&mut self) -> Result<bool, Stop> {
        let at = self.next();
        let stands = at < self.rows.len();
        self.at = at;
        self.stands = stands;
        Ok(stands)
    }

    fn hidden(&self) -> Option<u64> {
        self.current().hidden
    }

    fn row(&self, alloc: Global) -> Result<Row, Memory> {
        self.current().copy(alloc)
    }

    ghost stays = { λ s. (refl, refl) };

    ghost goes_on = { λ a b c first second. (second.0 ∙ first.0, second.1 ∙ first.1) };

    ghost stops_since = { λ a b c stop first may. may };
}
