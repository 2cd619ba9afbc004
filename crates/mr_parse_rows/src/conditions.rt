//! Conditions.

ghost use Rattle.std.specs.Prelude.{◌≡◌, IfOk, codes};
ghost use Rattle.mr_tokens.specs.Answers.{Reads};
ghost use Rattle.mr_parse_rows.specs.Nests.{Nests};
ghost use Rattle.mr_spec.specs.Phrases.{listed, separated, eat};
ghost use Rattle.mr_spec.specs.Literals.{literal as literal_of};
ghost use Rattle.mr_spec.specs.ConditionPhrases as spec;

use mr_base::Blob;
use mr_tokens::{Tokens, Unread, literal};
use mr_types::{Cmp, Expr, ExprList, ValueList};
use sqlite_items::{Boxed, Items};
use std::alloc::{AllocError, Global};

/// How many NOTs and parentheses may be nested.
const NESTING: usize = 64;

/// A sign that compares.
#[tactic(auto, unfolding(mr_spec::specs::ConditionPhrases::comparison))]
fn comparison(tokens: &mut Tokens<'_, '_>) -> Result<Cmp, Unread>
    ensures { Reads (spec.comparison tokens.old) result tokens.new }
{
    if tokens.eat_sign(b"=") {
        return Ok(Cmp::Eq);
    }
    if tokens.eat_sign(b"<>") {
        return Ok(Cmp::Ne);
    }
    if tokens.eat_sign(b"!=") {
        return Ok(Cmp::Ne);
    }
    if tokens.eat_sign(b"<") {
        return Ok(Cmp::Lt);
    }
    if tokens.eat_sign(b"<=") {
        return Ok(Cmp::Le);
    }
    if tokens.eat_sign(b">") {
        return Ok(Cmp::Gt);
    }
    tokens.expect_sign(b">=")?;
    Ok(Cmp::Ge)
}

/// The comparison with its sides exchanged.
fn turned(cmp: Cmp) -> Cmp
    ensures { result ≡ spec.turned cmp }
{
    match cmp {
        Cmp::Eq => Cmp::Eq,
        Cmp::Ne => Cmp::Ne,
        Cmp::Lt => Cmp::Gt,
        Cmp::Le => Cmp::Ge,
        Cmp::Gt => Cmp::Lt,
        Cmp::Ge => Cmp::Le,
    }
}

fn not(alloc: Global, part: Expr) -> Result<Expr, AllocError>
    ensures { IfOk result (λ e. e ≡ Expr.Not part) }
{
    Ok(Expr::Not(Boxed::new(alloc, part)?))
}

/// literal cmp name, with the name in front.
#[tactic(auto, unfolding(mr_spec::specs::ConditionPhrases::turned_test))]
fn turned_test(alloc: Global, tokens: &mut Tokens<'_, '_>) -> Result<Expr, Unread>
    ensures { Reads (spec.turned_test tokens.old) result tokens.new }
{
    let value = literal(alloc, tokens)?;
    let how = comparison(tokens)?;
    let column = tokens.name(alloc)?;
    Ok(Expr::Compare(column, turned(how), value))
}

/// `[NOT] NULL`
#[tactic(auto, unfolding(mr_spec::specs::ConditionPhrases::null_test, mr_spec::specs::Phrases::maybe))]
fn null_test(alloc: Global, tokens: &mut Tokens<'_, '_>, column: Blob) -> Result<Expr, Unread>
    ensures { Reads (spec.null_test column tokens.old) result tokens.new }
{
    let negative = tokens.eat(b"not");
    tokens.expect(b"null")?;
    let test = Expr::IsNull(column);
    if negative {
        Ok(not(alloc, test)?)
    } else {
        Ok(test)
    }
}

/// `literal AND literal`
#[tactic(auto, unfolding(mr_spec::specs::ConditionPhrases::between))]
fn between(alloc: Global, tokens: &mut Tokens<'_, '_>, column: Blob) -> Result<Expr, Unread>
    ensures { Reads (spec.between column tokens.old) result tokens.new }
{
    let low = literal(alloc, tokens)?;
    tokens.expect(b"and")?;
    let high = literal(alloc, tokens)?;
    Ok(Expr::Between(column, low, high))
}

/// `literal {, literal}`
fn literals(alloc: Global, tokens: &mut Tokens<'_, '_>) -> Result<ValueList, Unread>
    ensures { Reads (listed literal_of tokens.old) result tokens.new }
{
    let mut found = Items::new(alloc);
    for _turn in 0..tokens.len() {
        found.push(literal(alloc, tokens)?)?;
        if !tokens.eat_sign(b",") {
            return Ok(found);
        }
    }
    Err(Unread::Misspelled)
}

/// `( literal {, literal} )`
#[tactic(auto, unfolding(mr_spec::specs::ConditionPhrases::one_of, mr_spec::specs::Phrases::in_parentheses))]
fn one_of(alloc: Global, tokens: &mut Tokens<'_, '_>, column: Blob) -> Result<Expr, Unread>
    ensures { Reads (spec.one_of column tokens.old) result tokens.new }
{
    tokens.expect_sign(b"(")?;
    let values = literals(alloc, tokens)?;
    tokens.expect_sign(b")")?;
    Ok(Expr::OneOf(column, values))
}

/// What NOT may stand before.
#[tactic(auto, unfolding(mr_spec::specs::ConditionPhrases::range_test))]
fn range_test(alloc: Global, tokens: &mut Tokens<'_, '_>, column: Blob) -> Result<Expr, Unread>
    ensures { Reads (spec.range_test column tokens.old) result tokens.new }
{
    if tokens.eat(b"between") {
        return between(alloc, tokens, column);
    }
    tokens.expect(b"in")?;
    one_of(alloc, tokens, column)
}

#[tactic(auto, unfolding(mr_spec::specs::ConditionPhrases::comparison_test))]
fn comparison_test(alloc: Global, tokens: &mut Tokens<'_, '_>, column: Blob) -> Result<Expr, Unread>
    ensures { Reads (spec.comparison_test column tokens.old) result tokens.new }
{
    let how = comparison(tokens)?;
    let value = literal(alloc, tokens)?;
    Ok(Expr::Compare(column, how, value))
}

#[tactic(auto, unfolding(mr_spec::specs::ConditionPhrases::plain_test))]
fn plain_test(alloc: Global, tokens: &mut Tokens<'_, '_>, column: Blob) -> Result<Expr, Unread>
    ensures { Reads (spec.plain_test column tokens.old) result tokens.new }
{
    if tokens.sees(b"between") || tokens.sees(b"in") {
        range_test(alloc, tokens, column)
    } else {
        comparison_test(alloc, tokens, column)
    }
}

/// A test whose column stands in front.
#[tactic(auto, unfolding(mr_spec::specs::ConditionPhrases::column_test))]
fn column_test(alloc: Global, tokens: &mut Tokens<'_, '_>) -> Result<Expr, Unread>
    ensures { Reads (spec.column_test tokens.old) result tokens.new }
{
    let column = tokens.name(alloc)?;
    if tokens.eat(b"is") {
        return null_test(alloc, tokens, column);
    }
    if tokens.eat(b"not") {
        let test = range_test(alloc, tokens, column)?;
        return Ok(not(alloc, test)?);
    }
    plain_test(alloc, tokens, column)
}

#[tactic(auto, using(crate::proofs::Tests::by_front))]
fn test(alloc: Global, tokens: &mut Tokens<'_, '_>) -> Result<Expr, Unread>
    ensures { Reads (spec.test tokens.old) result tokens.new }
{
    if tokens.begins_name() {
        column_test(alloc, tokens)
    } else {
        turned_test(alloc, tokens)
    }
}

/// The parts, of which one stands alone.
fn all_of(mut parts: ExprList) -> Expr
    ensures { result ≡ spec.all_of parts }
{
    if parts.len() == 1 {
        return parts.remove(0);
    }
    Expr::And(parts)
}

fn any_of(mut parts: ExprList) -> Expr
    ensures { result ≡ spec.any_of parts }
{
    if parts.len() == 1 {
        return parts.remove(0);
    }
    Expr::Or(parts)
}

/// The phrases that hold conditions take the reader of what is nested in them as a value, so that each is
/// proved by itself.
#[derive(Clone, Copy)]
struct Nest<F> {
    alloc: Global,
    /// How many NOTs and parentheses may still be nested.
    depth: usize,
    neg: F,
}

impl<F: Fn(Global, &mut Tokens<'_, '_>, usize) -> Result<Expr, Unread>> Nest<F> {
    fn neg(&self, tokens: &mut Tokens<'_, '_>) -> Result<Expr, Unread>
        requires { Nests self.now.depth (F.pre self.now.neg) (F.post self.now.neg) }
        ensures { Reads (spec.neg self.now.depth tokens.old) result tokens.new }
    {
        (self.neg)(self.alloc, tokens, self.depth)
    }

    /// `neg {AND neg}`
    #[tactic(auto, unfolding(mr_spec::specs::ConditionPhrases::conj_by))]
    fn conj(&self, tokens: &mut Tokens<'_, '_>) -> Result<Expr, Unread>
        requires { Nests self.now.depth (F.pre self.now.neg) (F.post self.now.neg) }
        ensures { Reads (spec.conj_by (spec.neg self.now.depth) tokens.old) result tokens.new }
    {
        Ok(all_of(self.conj_parts(tokens)?))
    }

    fn conj_parts(&self, tokens: &mut Tokens<'_, '_>) -> Result<ExprList, Unread>
        requires { Nests self.now.depth (F.pre self.now.neg) (F.post self.now.neg) }
        ensures { Reads (separated (eat (codes "and")) (spec.neg self.now.depth) tokens.old) result tokens.new }
    {
        let mut found = Items::new(self.alloc);
        for _turn in 0..tokens.len() {
            found.push(self.neg(tokens)?)?;
            if !tokens.eat(b"and") {
                return Ok(found);
            }
        }
        Err(Unread::Misspelled)
    }

    /// `conj {OR conj}`
    #[tactic(auto, unfolding(mr_spec::specs::ConditionPhrases::cond_by))]
    fn cond(&self, tokens: &mut Tokens<'_, '_>) -> Result<Expr, Unread>
        requires { Nests self.now.depth (F.pre self.now.neg) (F.post self.now.neg) }
        ensures { Reads (spec.cond_by (spec.neg self.now.depth) tokens.old) result tokens.new }
    {
        Ok(any_of(self.cond_parts(tokens)?))
    }

    fn cond_parts(&self, tokens: &mut Tokens<'_, '_>) -> Result<ExprList, Unread>
        requires { Nests self.now.depth (F.pre self.now.neg) (F.post self.now.neg) }
        ensures { Reads (separated (eat (codes "or")) (spec.conj_by (spec.neg self.now.depth)) tokens.old) result tokens.new }
    {
        let mut found = Items::new(self.alloc);
        for _turn in 0..tokens.len() {
            found.push(self.conj(tokens)?)?;
            if !tokens.eat(b"or") {
                return Ok(found);
            }
        }
        Err(Unread::Misspelled)
    }

    /// `NOT neg | ( cond ) | test`
    #[tactic(auto, unfolding(mr_spec::specs::ConditionPhrases::nested))]
    fn nested(&self, tokens: &mut Tokens<'_, '_>) -> Result<Expr, Unread>
        requires { Nests self.now.depth (F.pre self.now.neg) (F.post self.now.neg) }
        ensures { Reads (spec.nested (spec.neg self.now.depth) tokens.old) result tokens.new }
    {
        if tokens.eat(b"not") {
            let part = self.neg(tokens)?;
            return Ok(not(self.alloc, part)?);
        }
        if tokens.eat_sign(b"(") {
            let inner = self.cond(tokens)?;
            tokens.expect_sign(b")")?;
            return Ok(inner);
        }
        test(self.alloc, tokens)
    }
}

/// neg, in which so many NOTs and parentheses may be nested.
fn neg(alloc: Global, tokens: &mut Tokens<'_, '_>, depth: usize) -> Result<Expr, Unread>
    ensures { Reads (spec.neg depth tokens.old) result tokens.new }
{
    if depth == 0 {
        return test(alloc, tokens);
    }
    let inside = Nest {
        alloc,
        depth: depth - 1,
        neg,
    };
    inside.nested(tokens)
}

/// A condition.
fn cond(alloc: Global, tokens: &mut Tokens<'_, '_>) -> Result<Expr, Unread>
    ensures { Reads (spec.cond tokens.old) result tokens.new }
{
    let inside = Nest {
        alloc,
        depth: NESTING,
        neg,
    };
    inside.cond(tokens)
}

/// `[WHERE cond]`
pub(crate) fn condition(alloc: Global, tokens: &mut Tokens<'_, '_>) -> Result<Option<Expr>, Unread>
    ensures { Reads (spec.condition tokens.old) result tokens.new }
{
    if tokens.eat(b"where") {
        Ok(Some(cond(alloc, tokens)?))
    } else {
        Ok(None)
    }
}
