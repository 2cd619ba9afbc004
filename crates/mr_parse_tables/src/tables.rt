//! CREATE TABLE.

ghost use Rattle.std.specs.Prelude.{◌≡◌, map, IfOk};
ghost use Rattle.mr_tokens.specs.Answers.{Reads};
ghost use Rattle.mr_spec.specs.Phrases.{in_parentheses};
ghost use Rattle.mr_spec.specs.Literals.{any_number as any_number_of};
ghost use Rattle.mr_spec.specs.TablePhrases as spec;

use crate::attributes::{attributes, check};
use crate::keys::{key_word, named_key, primary_key, primary_of};
use crate::options::options;
use mr_base::{Blob, Memory};
use mr_pieces::Collation;
use mr_spec::{Attributes, ColumnDraft, TableDraft, TableOptions};
use mr_tokens::{Tokens, Unread, any_number};
use mr_types::{ColumnText, ColumnTextList, KindText, Statement, TableText, Value};
use sqlite_items::Items;
use std::alloc::Global;

/// `[( number )]`
#[tactic(auto, unfolding(mr_spec::specs::TablePhrases::display_width, mr_spec::specs::Phrases::in_parentheses))]
fn display_width(tokens: &mut Tokens<'_, '_>) -> Result<(), Unread>
    ensures { Reads (spec.display_width tokens.old) result tokens.new }
{
    if tokens.sees_sign(b"(") {
        tokens.expect_sign(b"(")?;
        tokens.number(1, 255)?;
        tokens.expect_sign(b")")?;
    }
    Ok(())
}

/// `[( number )] [UNSIGNED]`
#[tactic(auto, unfolding(mr_spec::specs::TablePhrases::number_type))]
fn number_type(
    tokens: &mut Tokens<'_, '_>,
    signed: KindText,
    unsigned: KindText,
) -> Result<KindText, Unread>
    ensures { Reads (spec.number_type signed unsigned tokens.old) result tokens.new }
{
    display_width(tokens)?;
    if tokens.eat(b"unsigned") {
        Ok(unsigned)
    } else {
        Ok(signed)
    }
}

/// `( number )`
#[tactic(auto, unfolding(mr_spec::specs::Phrases::in_parentheses))]
fn length_in(tokens: &mut Tokens<'_, '_>) -> Result<u128, Unread>
    ensures { Reads (in_parentheses any_number_of tokens.old) result tokens.new }
{
    tokens.expect_sign(b"(")?;
    let length = any_number(tokens)?;
    tokens.expect_sign(b")")?;
    Ok(length)
}

/// A type; the collation of a VARCHAR is put in later.
#[tactic(auto, unfolding(mr_spec::specs::TablePhrases::column_type))]
fn column_type(tokens: &mut Tokens<'_, '_>) -> Result<KindText, Unread>
    ensures { Reads (spec.column_type tokens.old) result tokens.new }
{
    if tokens.eat(b"int") {
        return number_type(tokens, KindText::Int, KindText::IntUnsigned);
    }
    if tokens.eat(b"integer") {
        return number_type(tokens, KindText::Int, KindText::IntUnsigned);
    }
    if tokens.eat(b"bigint") {
        return number_type(tokens, KindText::BigInt, KindText::BigIntUnsigned);
    }
    if tokens.eat(b"varchar") {
        return Ok(KindText::VarChar(length_in(tokens)?, Collation::Ci));
    }
    tokens.expect(b"varbinary")?;
    Ok(KindText::VarBinary(length_in(tokens)?))
}

fn is_varchar(kind: KindText) -> bool
    ensures { result ≡ spec.is_varchar kind }
{
    match kind {
        KindText::VarChar(..) => true,
        _ => false,
    }
}

fn with_collation(collation: Collation, kind: KindText) -> KindText
    ensures { result ≡ spec.with_collation collation kind }
{
    match kind {
        KindText::VarChar(length, _) => KindText::VarChar(length, collation),
        other => other,
    }
}

fn or_ci(collation: Option<Collation>) -> Collation
    ensures { result ≡ spec.or_ci collation }
{
    match collation {
        None => Collation::Ci,
        Some(collation) => collation,
    }
}

fn or_nullable(nullable: Option<bool>) -> bool
    ensures { result ≡ spec.or_nullable nullable }
{
    match nullable {
        None => true,
        Some(nullable) => nullable,
    }
}

/// A column with neither COLLATE nor CHARACTER SET has its table's collation.
fn column_of(name: Blob, kind: KindText, attributes: Attributes) -> ColumnDraft
    ensures { result ≡ spec.column_of name kind attributes }
{
    ColumnDraft {
        text: ColumnText {
            name,
            kind: with_collation(or_ci(attributes.collation), kind),
            nullable: or_nullable(attributes.nullable),
            default: attributes.default,
        },
        of_table: attributes.collation.is_none() && !attributes.charset,
    }
}

/// With the key that an attribute PRIMARY KEY makes.
fn with_column_key(
    alloc: Global,
    mut draft: TableDraft,
    name: Option<Blob>,
) -> Result<TableDraft, Memory>
    ensures { IfOk result (λ d. d ≡ spec.with_column_key draft name) }
{
    if let Some(name) = name {
        let mut columns = Items::new(alloc);
        columns.push(name)?;
        let key = primary_of(alloc, columns, Blob::from_slice(alloc, &[])?)?;
        draft.keys.push(key)?;
    }
    Ok(draft)
}

/// The name once more, where the column is the primary key.
fn key_name(alloc: Global, name: &Blob, primary: bool) -> Result<Option<Blob>, Memory>
    ensures { IfOk result (λ n. n ≡ spec.key_name name.now primary) }
{
    if primary {
        Ok(Some(name.copy(alloc)?))
    } else {
        Ok(None)
    }
}

/// `name type {attribute}`
#[tactic(auto, unfolding(mr_spec::specs::TablePhrases::column))]
fn column(
    alloc: Global,
    tokens: &mut Tokens<'_, '_>,
    mut draft: TableDraft,
) -> Result<TableDraft, Unread>
    ensures { Reads (spec.column draft tokens.old) result tokens.new }
{
    let name = tokens.name(alloc)?;
    let kind = column_type(tokens)?;
    let attributes = attributes(alloc, tokens)?;
    let plain = attributes.collation.is_none() && !attributes.charset;
    check(tokens, is_varchar(kind) || plain)?;
    let key = key_name(alloc, &name, attributes.primary)?;
    draft.columns.push(column_of(name, kind, attributes))?;
    Ok(with_column_key(alloc, draft, key)?)
}

/// A column or a key.
#[tactic(auto, unfolding(mr_spec::specs::TablePhrases::item))]
fn item(
    alloc: Global,
    tokens: &mut Tokens<'_, '_>,
    mut draft: TableDraft,
) -> Result<TableDraft, Unread>
    ensures { Reads (spec.item draft tokens.old) result tokens.new }
{
    if tokens.eat(b"primary") {
        draft.keys.push(primary_key(alloc, tokens)?)?;
        return Ok(draft);
    }
    if tokens.eat(b"unique") {
        key_word(tokens);
        draft.keys.push(named_key(alloc, tokens, true)?)?;
        return Ok(draft);
    }
    if key_word(tokens) {
        draft.keys.push(named_key(alloc, tokens, false)?)?;
        return Ok(draft);
    }
    column(alloc, tokens, draft)
}

/// `item {, item}`
fn items(alloc: Global, tokens: &mut Tokens<'_, '_>) -> Result<TableDraft, Unread>
    ensures { Reads (spec.items tokens.old) result tokens.new }
{
    let mut draft = TableDraft {
        columns: Items::new(alloc),
        keys: Items::new(alloc),
    };
    for _turn in 0..tokens.len() {
        draft = item(alloc, tokens, draft)?;
        if !tokens.eat_sign(b",") {
            return Ok(draft);
        }
    }
    Err(Unread::Misspelled)
}

/// `( item {, item} )`
#[tactic(auto, unfolding(mr_spec::specs::Phrases::in_parentheses))]
fn items_in(alloc: Global, tokens: &mut Tokens<'_, '_>) -> Result<TableDraft, Unread>
    ensures { Reads (in_parentheses spec.items tokens.old) result tokens.new }
{
    tokens.expect_sign(b"(")?;
    let draft = items(alloc, tokens)?;
    tokens.expect_sign(b")")?;
    Ok(draft)
}

/// `[IF NOT EXISTS]`
#[tactic(auto, unfolding(mr_spec::specs::TablePhrases::if_not_exists))]
fn if_not_exists(tokens: &mut Tokens<'_, '_>) -> Result<bool, Unread>
    ensures { Reads (spec.if_not_exists tokens.old) result tokens.new }
{
    if !tokens.eat(b"if") {
        return Ok(false);
    }
    tokens.expect(b"not")?;
    tokens.expect(b"exists")?;
    Ok(true)
}

fn copy_default(alloc: Global, default: &Option<Value>) -> Result<Option<Value>, Memory>
    ensures { IfOk result (λ d. d ≡ default.now) }
{
    match default {
        None => Ok(None),
        Some(value) => Ok(Some(value.copy(alloc)?)),
    }
}

/// A column, with the table's collation where it has none of its own.
fn closed(alloc: Global, collation: Collation, column: &ColumnDraft) -> Result<ColumnText, Memory>
    ensures { IfOk result (λ c. c ≡ spec.closed collation column.now) }
{
    let text = &column.text;
    let kind = if column.of_table {
        with_collation(collation, text.kind)
    } else {
        text.kind
    };
    Ok(ColumnText {
        name: text.name.copy(alloc)?,
        kind,
        nullable: text.nullable,
        default: copy_default(alloc, &text.default)?,
    })
}

fn closed_columns(
    alloc: Global,
    collation: Collation,
    columns: &Items<ColumnDraft>,
) -> Result<ColumnTextList, Memory>
    ensures { IfOk result (λ cs. cs ≡ map (spec.closed collation) columns.now) }
{
    let mut found = Items::new(alloc);
    for column in columns.as_slice() {
        found.push(closed(alloc, collation, column)?)?;
    }
    Ok(found)
}

fn or_empty(alloc: Global, comment: Option<Blob>) -> Result<Blob, Memory>
    ensures { IfOk result (λ c. c ≡ spec.or_empty comment) }
{
    match comment {
        None => Blob::from_slice(alloc, &[]),
        Some(comment) => Ok(comment),
    }
}

/// What stands behind CREATE TABLE.
#[tactic(auto, unfolding(mr_spec::specs::TablePhrases::create_table))]
pub fn create_table(alloc: Global, tokens: &mut Tokens<'_, '_>) -> Result<Statement, Unread>
    ensures { Reads (spec.create_table tokens.old) result tokens.new }
{
    let if_not_exists = if_not_exists(tokens)?;
    let name = tokens.name(alloc)?;
    let draft = items_in(alloc, tokens)?;
    let TableOptions {
        engine,
        collation,
        comment,
        ..
    } = options(alloc, tokens)?;
    let TableDraft { columns, keys } = draft;
    let text = TableText {
        name,
        columns: closed_columns(alloc, or_ci(collation), &columns)?,
        keys,
        comment: or_empty(alloc, comment)?,
    };
    Ok(Statement::CreateTable {
        text,
        if_not_exists,
        engine,
    })
}
