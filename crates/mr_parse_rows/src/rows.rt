//! INSERT, REPLACE, UPDATE and DELETE.

ghost use Rattle.std.specs.Prelude.{◌≡◌, IfOk};
ghost use Rattle.mr_tokens.specs.Answers.{Reads};
ghost use Rattle.mr_spec.specs.Phrases.{listed};
ghost use Rattle.mr_spec.specs.RowPhrases as spec;

use crate::conditions::condition;
use mr_tokens::{Tokens, Unread, literal, names_in};
use mr_types::{
    Factor, FactorList, Insert, ItemValue, NameList, SetItem, SetList, SetTo, Statement, Term,
    TermList, Tuple, TupleList,
};
use sqlite_items::Items;
use std::alloc::Global;

/// `literal | DEFAULT`
#[tactic(auto, unfolding(mr_spec::specs::RowPhrases::item_value))]
fn item_value(alloc: Global, tokens: &mut Tokens<'_, '_>) -> Result<ItemValue, Unread>
    ensures { Reads (spec.item_value tokens.old) result tokens.new }
{
    if tokens.eat(b"default") {
        return Ok(ItemValue::Default);
    }
    Ok(ItemValue::Literal(literal(alloc, tokens)?))
}

fn item_values(alloc: Global, tokens: &mut Tokens<'_, '_>) -> Result<Tuple, Unread>
    ensures { Reads (listed spec.item_value tokens.old) result tokens.new }
{
    let mut found = Items::new(alloc);
    for _turn in 0..tokens.len() {
        found.push(item_value(alloc, tokens)?)?;
        if !tokens.eat_sign(b",") {
            return Ok(found);
        }
    }
    Err(Unread::Misspelled)
}

/// `( item_value {, item_value} )`
#[tactic(auto, unfolding(mr_spec::specs::Phrases::in_parentheses))]
fn tuple(alloc: Global, tokens: &mut Tokens<'_, '_>) -> Result<Tuple, Unread>
    ensures { Reads (spec.tuple tokens.old) result tokens.new }
{
    tokens.expect_sign(b"(")?;
    let found = item_values(alloc, tokens)?;
    tokens.expect_sign(b")")?;
    Ok(found)
}

fn tuples(alloc: Global, tokens: &mut Tokens<'_, '_>) -> Result<TupleList, Unread>
    ensures { Reads (listed spec.tuple tokens.old) result tokens.new }
{
    let mut found = Items::new(alloc);
    for _turn in 0..tokens.len() {
        found.push(tuple(alloc, tokens)?)?;
        if !tokens.eat_sign(b",") {
            return Ok(found);
        }
    }
    Err(Unread::Misspelled)
}

/// `[( names )]`
#[tactic(auto, unfolding(mr_spec::specs::RowPhrases::column_names))]
fn column_names(alloc: Global, tokens: &mut Tokens<'_, '_>) -> Result<Option<NameList>, Unread>
    ensures { Reads (spec.column_names tokens.old) result tokens.new }
{
    if tokens.sees_sign(b"(") {
        Ok(Some(names_in(alloc, tokens)?))
    } else {
        Ok(None)
    }
}

/// `VALUES | VALUE`
#[tactic(auto, unfolding(mr_spec::specs::RowPhrases::values_word))]
fn values_word(tokens: &mut Tokens<'_, '_>) -> Result<(), Unread>
    ensures { Reads (spec.values_word tokens.old) result tokens.new }
{
    if tokens.eat(b"values") {
        return Ok(());
    }
    tokens.expect(b"value")
}

/// What stands behind INSERT or REPLACE.
#[tactic(auto, unfolding(mr_spec::specs::RowPhrases::insert, mr_spec::specs::Phrases::maybe))]
pub fn insert(alloc: Global, tokens: &mut Tokens<'_, '_>) -> Result<Insert, Unread>
    ensures { Reads (spec.insert tokens.old) result tokens.new }
{
    tokens.eat(b"into");
    let table = tokens.name(alloc)?;
    let columns = column_names(alloc, tokens)?;
    values_word(tokens)?;
    let rows = tuples(alloc, tokens)?;
    Ok(Insert {
        table,
        columns,
        rows,
    })
}

/// `name | literal`
#[tactic(auto, unfolding(mr_spec::specs::RowPhrases::factor))]
fn factor(alloc: Global, tokens: &mut Tokens<'_, '_>) -> Result<Factor, Unread>
    ensures { Reads (spec.factor tokens.old) result tokens.new }
{
    if tokens.begins_name() {
        Ok(Factor::Column(tokens.name(alloc)?))
    } else {
        Ok(Factor::Literal(literal(alloc, tokens)?))
    }
}

/// `factor {* factor}`
fn product(alloc: Global, tokens: &mut Tokens<'_, '_>) -> Result<FactorList, Unread>
    ensures { Reads (spec.product tokens.old) result tokens.new }
{
    let mut found = Items::new(alloc);
    for _turn in 0..tokens.len() {
        found.push(factor(alloc, tokens)?)?;
        if !tokens.eat_sign(b"*") {
            return Ok(found);
        }
    }
    Err(Unread::Misspelled)
}

/// The sign that comes next, true for a minus.
#[tactic(auto, unfolding(mr_spec::specs::RowPhrases::plus_or_minus))]
fn plus_or_minus(tokens: &mut Tokens<'_, '_>) -> Option<bool>
    ensures { spec.plus_or_minus tokens.old ≡ Some (result, tokens.new) }
{
    if tokens.eat_sign(b"+") {
        return Some(false);
    }
    if tokens.eat_sign(b"-") {
        Some(true)
    } else {
        None
    }
}

/// `product {(+ | -) product}`
fn sum(alloc: Global, tokens: &mut Tokens<'_, '_>) -> Result<TermList, Unread>
    ensures { Reads (spec.sum tokens.old) result tokens.new }
{
    let mut found = Items::new(alloc);
    let mut minus = false;
    for _turn in 0..tokens.len() {
        let factors = product(alloc, tokens)?;
        found.push(Term { minus, factors })?;
        match plus_or_minus(tokens) {
            None => return Ok(found),
            Some(next) => minus = next,
        }
    }
    Err(Unread::Misspelled)
}

/// `DEFAULT | sum`
#[tactic(auto, unfolding(mr_spec::specs::RowPhrases::set_to))]
fn set_to(alloc: Global, tokens: &mut Tokens<'_, '_>) -> Result<SetTo, Unread>
    ensures { Reads (spec.set_to tokens.old) result tokens.new }
{
    if tokens.eat(b"default") {
        return Ok(SetTo::Default);
    }
    Ok(SetTo::Sum(sum(alloc, tokens)?))
}

/// `name = (DEFAULT | sum)`
#[tactic(auto, unfolding(mr_spec::specs::RowPhrases::set_item))]
fn set_item(alloc: Global, tokens: &mut Tokens<'_, '_>) -> Result<SetItem, Unread>
    ensures { Reads (spec.set_item tokens.old) result tokens.new }
{
    let column = tokens.name(alloc)?;
    tokens.expect_sign(b"=")?;
    let to = set_to(alloc, tokens)?;
    Ok(SetItem { column, to })
}

fn set_items(alloc: Global, tokens: &mut Tokens<'_, '_>) -> Result<SetList, Unread>
    ensures { Reads (listed spec.set_item tokens.old) result tokens.new }
{
    let mut found = Items::new(alloc);
    for _turn in 0..tokens.len() {
        found.push(set_item(alloc, tokens)?)?;
        if !tokens.eat_sign(b",") {
            return Ok(found);
        }
    }
    Err(Unread::Misspelled)
}

/// What stands behind UPDATE.
#[tactic(auto, unfolding(mr_spec::specs::RowPhrases::update))]
pub fn update(alloc: Global, tokens: &mut Tokens<'_, '_>) -> Result<Statement, Unread>
    ensures { Reads (spec.update tokens.old) result tokens.new }
{
    let table = tokens.name(alloc)?;
    tokens.expect(b"set")?;
    let set = set_items(alloc, tokens)?;
    let condition = condition(alloc, tokens)?;
    Ok(Statement::Update {
        table,
        set,
        condition,
    })
}

/// What stands behind DELETE.
#[tactic(auto, unfolding(mr_spec::specs::RowPhrases::delete))]
pub fn delete(alloc: Global, tokens: &mut Tokens<'_, '_>) -> Result<Statement, Unread>
    ensures { Reads (spec.delete tokens.old) result tokens.new }
{
    tokens.expect(b"from")?;
    let table = tokens.name(alloc)?;
    let condition = condition(alloc, tokens)?;
    Ok(Statement::Delete { table, condition })
}
