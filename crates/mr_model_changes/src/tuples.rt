//! The columns and tuples of INSERT and REPLACE.

ghost use Rattle.std.specs.Prelude.{◌≡◌, map, unwrap_or, IfOk, nat_eq, not, ◌==◌, length, position, []};
ghost use Rattle.std.specs.List.{list_any, enumerate_from};
ghost use Rattle.std.specs.Option.{option_copied};
ghost use Rattle.mr_types.specs.declared.value.Value.TheVariants.{Null};
ghost use Rattle.mr_types.specs.declared.statement.ItemValue.TheVariants.{Default};
ghost use Rattle.mr_types.specs.Refusals.{in_turn};
ghost use Rattle.mr_types.specs.Values.{Answers};
ghost use Rattle.mr_model_changes.specs.Writing.{filled};
ghost use Rattle.mr_spec.specs.NewRows.{with_place as and_place, listed_places as places_listed, item_for as item_of, is_default as says_default, lacks as lacks_value, insert_tests as tests_of, assigned as assigned_value, fields_of as fields_for};

use mr_base::{Blob, Memory};
use mr_model_rows::place_of;
use mr_types::{
    ColumnDef, Insert, ItemValue, NameList, Refused, TableDef, Tuple, Value, ValueList, assign,
};
use sqlite_items::Items;
use std::alloc::Global;

/// Places of columns, which contracts see as a list of numbers.
pub(crate) type PlaceList = Items<usize>;

/// Whether a place is among these.
fn is_listed(at: &[usize], place: usize) -> bool
    ensures { result ≡ list_any (nat_eq place) at.now }
{
    at.iter().any(|listed| place == *listed)
}

/// One more place of the column list: 1054 where the column isn't there, 1110 where it stands
/// twice.
fn with_place(def: &TableDef, mut at: PlaceList, name: &[u8]) -> Result<PlaceList, Refused>
    ensures { Answers result (and_place def.now at name.now) }
{
    let Some(place) = place_of(def, name) else {
        return Err(Refused::Sql(1054));
    };
    if is_listed(at.as_slice(), place) {
        return Err(Refused::Sql(1110));
    }
    at.push(place)?;
    Ok(at)
}

/// The places of all columns.
fn all_places(alloc: Global, columns: &[ColumnDef]) -> Result<PlaceList, Memory>
    ensures { IfOk result (λ at. at ≡ map (λ p. p.0) (enumerate_from 0 columns.now)) }
{
    let mut at = PlaceList::new(alloc);
    for (i, _) in columns.iter().enumerate() {
        at.push(i)?;
    }
    Ok(at)
}

/// The places of the columns of these names, or the first refusal.
fn named_places(alloc: Global, def: &TableDef, names: &[Blob]) -> Result<PlaceList, Refused>
    ensures { Answers result (in_turn (and_place def.now) [] names.now) }
{
    let mut at = PlaceList::new(alloc);
    for name in names {
        at = with_place(def, at, name.as_slice())?;
    }
    Ok(at)
}

/// The places of the column list, or of all columns where there is none.
fn listed_places(
    alloc: Global,
    def: &TableDef,
    columns: &Option<NameList>,
) -> Result<PlaceList, Refused>
    ensures { Answers result (places_listed def.now columns.now) }
{
    match columns {
        None => Ok(all_places(alloc, def.columns.as_slice())?),
        Some(names) => named_places(alloc, def, names.as_slice()),
    }
}

/// Which of these places a column has.
fn position_of(at: &[usize], column: usize) -> Option<usize>
    ensures { result ≡ position (nat_eq column) at.now }
{
    for (i, place) in at.iter().enumerate() {
        if column == *place {
            return Some(i);
        }
    }
    None
}

/// What a tuple has for a column; None, which is DEFAULT, where the column isn't listed.
fn item_for<'a>(at: &[usize], tuple: &'a [ItemValue], column: usize) -> Option<&'a ItemValue>
    ensures { unwrap_or (option_copied result) Default ≡ item_of at.now tuple.now column }
{
    match position_of(at, column) {
        Some(n) => tuple.get(n),
        None => None,
    }
}

/// Whether the tuple has DEFAULT for a column.
fn is_default(at: &[usize], tuple: &[ItemValue], column: usize) -> bool
    ensures { result ≡ says_default (item_of at.now tuple.now column) }
{
    match item_for(at, tuple, column) {
        Some(ItemValue::Literal(_)) => false,
        _ => true,
    }
}

/// Whether one of these tuples has DEFAULT for a column.
fn has_default(at: &[usize], tuples: &[Tuple], column: usize) -> bool
    ensures { result ≡ list_any (λ t. says_default (item_of at.now t column)) tuples.now }
{
    tuples
        .iter()
        .any(|tuple| is_default(at, tuple.as_slice(), column))
}

/// Whether a NOT NULL column without a default is missing or has DEFAULT.
fn lacks(at: &[usize], tuples: &[Tuple], place: usize, column: &ColumnDef) -> bool
    ensures { result ≡ lacks_value at.now tuples.now (place, column.now) }
{
    column.default.is_none() && has_default(at, tuples, place)
}

/// Whether a column has no value in one of these tuples.
fn lacks_some(at: &[usize], tuples: &[Tuple], columns: &[ColumnDef]) -> bool
    ensures { result ≡ list_any (lacks_value at.now tuples.now) (enumerate_from 0 columns.now) }
{
    for (i, column) in columns.iter().enumerate() {
        if lacks(at, tuples, i, column) {
            return true;
        }
    }
    false
}

/// Whether a tuple has another length than these places.
fn has_other_length(tuples: &[Tuple], at: &[usize]) -> bool
    ensures { result ≡ list_any (λ t. not (length t == length at.now)) tuples.now }
{
    tuples.iter().any(|tuple| tuple.len() != at.len())
}

/// The places, where each tuple has as many values, else 1136, and each column has one, else 1364.
fn places_filled(def: &TableDef, at: PlaceList, tuples: &[Tuple]) -> Result<PlaceList, Refused>
    ensures { Answers result (filled def.now at tuples.now) }
{
    if has_other_length(tuples, at.as_slice()) {
        return Err(Refused::Sql(1136));
    }
    if lacks_some(at.as_slice(), tuples, def.columns.as_slice()) {
        return Err(Refused::Sql(1364));
    }
    Ok(at)
}

/// The places of the columns that a statement gives values for: 1054 and 1110 for the column list,
/// 1136 for a tuple of another length, 1364 for a column without a value.
pub(crate) fn insert_tests(
    alloc: Global,
    def: &TableDef,
    statement: &Insert,
) -> Result<PlaceList, Refused>
    ensures { Answers result (tests_of def.now statement.now) }
{
    let at = listed_places(alloc, def, &statement.columns)?;
    places_filled(def, at, statement.rows.as_slice())
}

/// The default of a column, NULL where it has none.
pub(crate) fn default_of(alloc: Global, column: &ColumnDef) -> Result<Value, Memory>
    ensures { IfOk result (λ v. v ≡ unwrap_or column.now.default Null) }
{
    match &column.default {
        Some(value) => value.copy(alloc),
        None => Ok(Value::Null),
    }
}

/// A tuple's value for a column: the default, or the literal as assignment gives it.
fn assigned(
    alloc: Global,
    at: &[usize],
    tuple: &[ItemValue],
    place: usize,
    column: &ColumnDef,
) -> Result<Value, Refused>
    ensures { Answers result (assigned_value column.now (item_of at.now tuple.now place)) }
{
    match item_for(at, tuple, place) {
        Some(ItemValue::Literal(value)) => assign(alloc, value, &column.ty),
        _ => Ok(default_of(alloc, column)?),
    }
}

/// The values of a tuple, in column order, or the first refusal.
pub(crate) fn fields_of(
    alloc: Global,
    def: &TableDef,
    at: &[usize],
    tuple: &[ItemValue],
) -> Result<ValueList, Refused>
    ensures { Answers result (fields_for def.now at.now tuple.now) }
{
    let mut fields = ValueList::new(alloc);
    for (i, column) in def.columns.as_slice().iter().enumerate() {
        fields.push(assigned(alloc, at, tuple, i, column)?)?;
    }
    Ok(fields)
}
