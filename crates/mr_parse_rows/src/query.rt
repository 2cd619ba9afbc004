//! SELECT.

ghost use Rattle.std.specs.Prelude.{◌≡◌, ◌||◌, ◌&&◌, is_none, Some};
ghost use Rattle.mr_tokens.specs.Answers.{Reads};
ghost use Rattle.mr_spec.specs.Phrases.{listed, in_parentheses, name, check};
ghost use Rattle.mr_types.specs.Grammatical.{is_empty};
ghost use Rattle.mr_spec.specs.SelectPhrase as spec;

use crate::conditions::condition;
use mr_base::Blob;
use mr_spec::Limit;
use mr_tokens::{Tokens, Unread, names};
use mr_types::{Aggregate, AggregateList, Columns, IndexName, OrderItem, OrderList, Select};
use sqlite_items::Items;
use std::alloc::Global;

/// Whether COUNT, MIN or MAX and a parenthesis come next.
#[tactic(auto, unfolding(mr_spec::specs::SelectPhrase::begins_aggregate))]
fn begins_aggregate(tokens: &Tokens<'_, '_>) -> bool
    ensures { result ≡ spec.begins_aggregate tokens.now }
{
    (tokens.sees(b"count") || tokens.sees(b"min") || tokens.sees(b"max"))
        && tokens.behind().sees_sign(b"(")
}

/// `( name )`
#[tactic(auto, unfolding(mr_spec::specs::Phrases::in_parentheses))]
fn name_in(alloc: Global, tokens: &mut Tokens<'_, '_>) -> Result<Blob, Unread>
    ensures { Reads (in_parentheses name tokens.old) result tokens.new }
{
    tokens.expect_sign(b"(")?;
    let column = tokens.name(alloc)?;
    tokens.expect_sign(b")")?;
    Ok(column)
}

/// `COUNT ( * ) | MIN ( name ) | MAX ( name )`
#[tactic(auto, unfolding(mr_spec::specs::SelectPhrase::aggregate, mr_spec::specs::Phrases::in_parentheses))]
fn aggregate(alloc: Global, tokens: &mut Tokens<'_, '_>) -> Result<Aggregate, Unread>
    ensures { Reads (spec.aggregate tokens.old) result tokens.new }
{
    if tokens.eat(b"count") {
        tokens.expect_sign(b"(")?;
        tokens.expect_sign(b"*")?;
        tokens.expect_sign(b")")?;
        return Ok(Aggregate::Count);
    }
    if tokens.eat(b"min") {
        return Ok(Aggregate::Min(name_in(alloc, tokens)?));
    }
    tokens.expect(b"max")?;
    Ok(Aggregate::Max(name_in(alloc, tokens)?))
}

fn aggregates(alloc: Global, tokens: &mut Tokens<'_, '_>) -> Result<AggregateList, Unread>
    ensures { Reads (listed spec.aggregate tokens.old) result tokens.new }
{
    let mut found = Items::new(alloc);
    for _turn in 0..tokens.len() {
        found.push(aggregate(alloc, tokens)?)?;
        if !tokens.eat_sign(b",") {
            return Ok(found);
        }
    }
    Err(Unread::Misspelled)
}

/// `* | names | aggregate {, aggregate}`
#[tactic(auto, unfolding(mr_spec::specs::SelectPhrase::select_list))]
fn select_list(alloc: Global, tokens: &mut Tokens<'_, '_>) -> Result<Columns, Unread>
    ensures { Reads (spec.select_list tokens.old) result tokens.new }
{
    if tokens.eat_sign(b"*") {
        return Ok(Columns::All);
    }
    if begins_aggregate(tokens) {
        Ok(Columns::Aggregates(aggregates(alloc, tokens)?))
    } else {
        Ok(Columns::Names(names(alloc, tokens)?))
    }
}

/// `name | PRIMARY`
#[tactic(auto, unfolding(mr_spec::specs::SelectPhrase::index_name))]
fn index_name(alloc: Global, tokens: &mut Tokens<'_, '_>) -> Result<IndexName, Unread>
    ensures { Reads (spec.index_name tokens.old) result tokens.new }
{
    if tokens.eat(b"primary") {
        return Ok(IndexName::Primary);
    }
    Ok(IndexName::Name(tokens.name(alloc)?))
}

/// `[FORCE INDEX ( index )]`
#[tactic(auto, unfolding(mr_spec::specs::SelectPhrase::forced_index, mr_spec::specs::Phrases::in_parentheses))]
fn forced_index(alloc: Global, tokens: &mut Tokens<'_, '_>) -> Result<Option<IndexName>, Unread>
    ensures { Reads (spec.forced_index tokens.old) result tokens.new }
{
    if !tokens.eat(b"force") {
        return Ok(None);
    }
    tokens.expect(b"index")?;
    tokens.expect_sign(b"(")?;
    let index = index_name(alloc, tokens)?;
    tokens.expect_sign(b")")?;
    Ok(Some(index))
}

/// `[ASC|DESC]`
#[tactic(auto, unfolding(mr_spec::specs::SelectPhrase::descending))]
fn descending(tokens: &mut Tokens<'_, '_>) -> bool
    ensures { spec.descending tokens.old ≡ Some (result, tokens.new) }
{
    if tokens.eat(b"asc") {
        return false;
    }
    tokens.eat(b"desc")
}

/// `name [ASC|DESC]`
#[tactic(auto, unfolding(mr_spec::specs::SelectPhrase::order_item))]
fn order_item(alloc: Global, tokens: &mut Tokens<'_, '_>) -> Result<OrderItem, Unread>
    ensures { Reads (spec.order_item tokens.old) result tokens.new }
{
    let column = tokens.name(alloc)?;
    let descending = descending(tokens);
    Ok(OrderItem { column, descending })
}

fn order_items(alloc: Global, tokens: &mut Tokens<'_, '_>) -> Result<OrderList, Unread>
    ensures { Reads (listed spec.order_item tokens.old) result tokens.new }
{
    let mut found = Items::new(alloc);
    for _turn in 0..tokens.len() {
        found.push(order_item(alloc, tokens)?)?;
        if !tokens.eat_sign(b",") {
            return Ok(found);
        }
    }
    Err(Unread::Misspelled)
}

/// `[ORDER BY name [ASC|DESC] {, name [ASC|DESC]}]`
#[tactic(auto, unfolding(mr_spec::specs::SelectPhrase::order))]
fn order(alloc: Global, tokens: &mut Tokens<'_, '_>) -> Result<OrderList, Unread>
    ensures { Reads (spec.order tokens.old) result tokens.new }
{
    if !tokens.eat(b"order") {
        return Ok(Items::new(alloc));
    }
    tokens.expect(b"by")?;
    order_items(alloc, tokens)
}

/// A number below 2^64.
fn row_count(tokens: &mut Tokens<'_, '_>) -> Result<u64, Unread>
    ensures { Reads (spec.row_count tokens.old) result tokens.new }
{
    Ok(tokens.number(0, u64::MAX as u128)? as u64)
}

/// What stands behind LIMIT.
#[tactic(auto, unfolding(mr_spec::specs::SelectPhrase::limit_numbers))]
fn limit_numbers(tokens: &mut Tokens<'_, '_>) -> Result<Limit, Unread>
    ensures { Reads (spec.limit_numbers tokens.old) result tokens.new }
{
    let first = row_count(tokens)?;
    if tokens.eat(b"offset") {
        return Ok(Limit {
            skip: row_count(tokens)?,
            most: Some(first),
        });
    }
    if tokens.eat_sign(b",") {
        return Ok(Limit {
            skip: first,
            most: Some(row_count(tokens)?),
        });
    }
    Ok(Limit {
        skip: 0,
        most: Some(first),
    })
}

/// What LIMIT says; without it no row is left out.
#[tactic(auto, unfolding(mr_spec::specs::SelectPhrase::limit))]
fn limit(tokens: &mut Tokens<'_, '_>) -> Result<Limit, Unread>
    ensures { Reads (spec.limit tokens.old) result tokens.new }
{
    if tokens.eat(b"limit") {
        limit_numbers(tokens)
    } else {
        Ok(Limit {
            skip: 0,
            most: None,
        })
    }
}

/// Whether the list is none of aggregates.
fn may_be_ordered(columns: &Columns) -> bool
    ensures { result ≡ spec.may_be_ordered columns.now }
{
    match columns {
        Columns::Aggregates(_) => false,
        _ => true,
    }
}

/// That an aggregate list has no ORDER BY and no LIMIT.
#[tactic(auto, unfolding(mr_spec::specs::Phrases::check))]
fn check_order(
    tokens: &Tokens<'_, '_>,
    columns: &Columns,
    order: &OrderList,
    limit: &Limit,
) -> Result<(), Unread>
    ensures { Reads (check (spec.may_be_ordered columns.now || (is_empty order.now && is_none limit.now.most)) tokens.now) result tokens.now }
{
    if may_be_ordered(columns) || (order.len() == 0 && limit.most.is_none()) {
        Ok(())
    } else {
        Err(Unread::Misspelled)
    }
}

/// What stands behind SELECT.
#[tactic(auto, unfolding(mr_spec::specs::SelectPhrase::select))]
pub fn select(alloc: Global, tokens: &mut Tokens<'_, '_>) -> Result<Select, Unread>
    ensures { Reads (spec.select tokens.old) result tokens.new }
{
    let columns = select_list(alloc, tokens)?;
    tokens.expect(b"from")?;
    let table = tokens.name(alloc)?;
    let forced = forced_index(alloc, tokens)?;
    let condition = condition(alloc, tokens)?;
    let order = order(alloc, tokens)?;
    let limit = limit(tokens)?;
    check_order(tokens, &columns, &order, &limit)?;
    Ok(Select {
        columns,
        table,
        forced,
        condition,
        order,
        skip: limit.skip,
        most: limit.most,
    })
}
