//! A table, the keys of its rows, and what a plan tells of them.

use mr_base::Memory;
use mr_bind::bind;
use mr_memcmp::compare_keys;
use mr_parse::parse_statement;
use mr_plan::{Plan, Range, plan, point};
use mr_schema::check;
use mr_spec::Bound;
use mr_types::{Expr, Refused, Row, Statement, TableDef, Value};
use sqlite_items::Items;
use std::alloc::{AllocError, Global};

const TABLE: &[u8] =
    b"CREATE TABLE t (id INT NOT NULL, k INT, s VARCHAR(4) COLLATE ascii_general_ci, u BIGINT UNSIGNED NOT NULL, PRIMARY KEY (id), KEY kk (k), KEY ks (s, k), KEY ku (u, k))";

/// The keys of six rows in each index, behind the index number: (1, NULL, NULL, 0), (2, -5, 'A', 1),
/// (3, 0, 'ab', 1), (4, 7, 'AB ', 2), (5, 7, 'b', 2) and (6, 2147483647, '', 2^64 - 1).
const KEYS_0: &[u8] = b"80000001 80000002 80000003 80000004 80000005 80000006";

const KEYS_1: &[u8] =
    b"0080000001 017ffffffb80000002 018000000080000003 018000000780000004 018000000780000005 01ffffffff80000006";

const KEYS_2: &[u8] =
    b"000080000001 01412020202020202002017ffffffb80000002 01414220202020202002018000000080000003 01414220202020202002018000000780000004 01422020202020202002018000000780000005 0120202020202020200201ffffffff80000006";

const KEYS_3: &[u8] =
    b"00000000000000000080000001 0000000000000001017ffffffb80000002 0000000000000001018000000080000003 0000000000000002018000000780000004 0000000000000002018000000780000005 ffffffffffffffff01ffffffff80000006";

fn keys_of(index: usize) -> &'static [u8] {
    match index {
        0 => KEYS_0,
        1 => KEYS_1,
        2 => KEYS_2,
        _ => KEYS_3,
    }
}

/// The table; None where the text is no definition.
fn table(alloc: Global) -> Result<Option<TableDef>, Refused> {
    match parse_statement(alloc, TABLE)? {
        Statement::CreateTable { text, .. } => Ok(Some(check(alloc, &text)?)),
        _ => Ok(None),
    }
}

/// The condition of a SELECT.
fn condition(alloc: Global, text: &[u8]) -> Result<Option<Expr>, Refused> {
    let mut statement = Vec::from_slice(alloc, b"SELECT * FROM t WHERE ")?;
    statement.extend_from_slice(text)?;
    match parse_statement(alloc, statement.as_slice())? {
        Statement::Select(select) => Ok(select.condition),
        _ => Ok(None),
    }
}

const DIGITS: &[u8; 16] = b"0123456789abcdef";

/// Bytes as lower-case hexadecimal digits, which stand in the same order.
fn hex(alloc: Global, bytes: &[u8]) -> Result<Vec<u8>, AllocError> {
    let mut out = Vec::new(alloc);
    for byte in bytes {
        out.push(DIGITS[(*byte / 16) as usize])?;
        out.push(DIGITS[(*byte % 16) as usize])?;
    }
    Ok(out)
}

/// Whether a key, in digits, lies in a range.
fn lies_in(alloc: Global, range: &Range, key: &[u8]) -> Result<bool, Memory> {
    let low = hex(alloc, range.low.as_slice())?;
    if compare_keys(key, low.as_slice()).is_lt() {
        return Ok(false);
    }
    match &range.high {
        None => Ok(true),
        Some(high) => {
            let high = hex(alloc, high.as_slice())?;
            Ok(compare_keys(key, high.as_slice()).is_lt())
        }
    }
}

/// In how many ranges a key lies, as a digit.
fn times(alloc: Global, ranges: &[Range], key: &[u8]) -> Result<u8, Memory> {
    let mut count = b'0';
    for range in ranges {
        if lies_in(alloc, range, key)? {
            count = count.saturating_add(1);
        }
    }
    Ok(count)
}

fn index_digit(index: usize) -> u8 {
    match index {
        0 => b'0',
        1 => b'1',
        2 => b'2',
        3 => b'3',
        _ => b'?',
    }
}

/// The index, whether it covers, and per row in how many ranges its key lies.
fn told(alloc: Global, plan: &Plan) -> Result<Items<u8>, Memory> {
    let mut out = Items::new(alloc);
    out.push(index_digit(plan.index))?;
    out.push(if plan.covers { b'c' } else { b'-' })?;
    for key in keys_of(plan.index).split(|byte| *byte == b' ') {
        out.push(times(alloc, plan.ranges.as_slice(), key)?)?;
    }
    Ok(out)
}

fn forced_of(byte: u8) -> Option<usize> {
    if byte.is_ascii_digit() {
        Some((byte - b'0') as usize)
    } else {
        None
    }
}

/// The condition with the places of columns; None where a text is none.
fn bound_of(alloc: Global, def: &TableDef, text: &[u8]) -> Result<Option<Bound>, Refused> {
    if def.columns.len() > 255 {
        return Ok(None);
    }
    match condition(alloc, text)? {
        None => Ok(None),
        Some(expr) => Ok(Some(bind(alloc, def, &expr)?)),
    }
}

/// What the plan of a condition tells.
fn told_of(
    alloc: Global,
    def: &TableDef,
    bound: &Bound,
    forced: u8,
    needed: u8,
) -> Result<Items<u8>, Memory> {
    let needed = (needed % 16) as u64;
    let plan = plan(alloc, def, Some(bound), needed, forced_of(forced))?;
    told(alloc, &plan)
}

/// Whether a condition has this plan.
fn has_plan(
    alloc: Global,
    def: &TableDef,
    text: &[u8],
    forced: u8,
    needed: u8,
    wanted: &[u8],
) -> Result<bool, Refused> {
    match bound_of(alloc, def, text)? {
        None => Ok(false),
        Some(bound) => Ok(told_of(alloc, def, &bound, forced, needed)?.as_slice() == wanted),
    }
}

fn is_told(alloc: Global, def: &TableDef, line: &[u8]) -> Result<bool, Refused> {
    match line {
        [forced, needed, a, b, c, d, e, f, g, h, b'=', text @ ..] => {
            has_plan(
                alloc,
                def,
                text,
                *forced,
                *needed,
                &[*a, *b, *c, *d, *e, *f, *g, *h],
            )
        }
        _ => Ok(false),
    }
}

/// The place of the first line whose condition has another plan.
fn wrong_line(alloc: Global, lines: &[u8]) -> Result<Option<usize>, Refused> {
    let Some(def) = table(alloc)? else {
        return Ok(Some(0));
    };
    for (i, line) in lines.split(|byte| *byte == b'\n').enumerate() {
        if !is_told(alloc, &def, line)? {
            return Ok(Some(i));
        }
    }
    Ok(None)
}

/// The place of the first line whose condition has another plan; None where all are told, and where
/// memory or a definition is refused the first place of all.
pub fn first_wrong(alloc: Global, lines: &[u8]) -> Result<Option<usize>, Memory> {
    match wrong_line(alloc, lines) {
        Ok(wrong) => Ok(wrong),
        Err(Refused::Memory) => Err(Memory),
        Err(Refused::Sql(_)) => Ok(Some(usize::MAX)),
    }
}

/// The number in the first column of a row.
fn first_number(row: &Row) -> Option<i128> {
    match row.fields.as_slice() {
        [Value::Number(number), ..] => Some(*number),
        _ => None,
    }
}

fn number_in(alloc: Global, def: &TableDef, bound: &Bound) -> Result<Option<i128>, Memory> {
    if def.columns.len() > 255 {
        return Ok(None);
    }
    match point(alloc, def, Some(bound))? {
        None => Ok(None),
        Some(row) => Ok(first_number(&row)),
    }
}

fn number_of(alloc: Global, text: &[u8]) -> Result<Option<i128>, Refused> {
    let Some(def) = table(alloc)? else {
        return Ok(None);
    };
    match bound_of(alloc, &def, text)? {
        None => Ok(None),
        Some(bound) => Ok(number_in(alloc, &def, &bound)?),
    }
}

/// The primary key that a condition leaves, where it leaves one.
pub fn key_left(alloc: Global, text: &[u8]) -> Result<Option<i128>, Memory> {
    match number_of(alloc, text) {
        Ok(number) => Ok(number),
        Err(_) => Err(Memory),
    }
}
