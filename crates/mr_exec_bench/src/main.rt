//! How long SELECT over rows in memory takes, of `v > 5 AND n = 'x'`, and of the same with ORDER BY and LIMIT 10:
//! `mr_exec_bench 100000 1000000`. Any other word stands for 10,000 rows.
#![tactic(auto)]

ghost use Rattle.std.specs.Prelude.{◌≡◌, true};
ghost use Rattle.mr_exec.specs.Lists.{rows_fit};

mod statements;
mod tables;

use crate::statements::{listing, ordered};
use crate::tables::{rows_of, table};
use mr_bound::BoundSelect;
use mr_exec::{ListRows, are_fit, select};
use mr_types::{Row, TableDef};
use std::alloc::Global;
use std::time::Instant;
use std::{env, io};

/// How many rows a SELECT gives of these, which were tested before; None where it fails.
fn count_found(
    alloc: Global,
    def: &TableDef,
    rows: &[Row],
    statement: &BoundSelect,
) -> Option<usize>
    requires { rows_fit def.now rows.now ≡ true }
{
    let mut source = ListRows::new(def, rows);
    match select(alloc, &mut source, def, statement) {
        Ok(found) => Some(found.len()),
        Err(_) => None,
    }
}

/// Times a SELECT of these rows.
fn time_select(
    rt: &HostRuntime,
    def: &TableDef,
    rows: &[Row],
    statement: &BoundSelect,
    what: &str,
) -> io::Result<()> {
    if !are_fit(def, rows) {
        return Ok(());
    }
    let start = Instant::now(rt)?;
    let found = count_found(rt.alloc(), def, rows, statement).unwrap_or(0);
    let took = start.elapsed(rt)?.as_micros();
    let count = rows.len();
    println!(rt; "{count} rows, {what} give {found}, {took} us")
}

fn time_listing(rt: &HostRuntime, def: &TableDef, rows: &[Row]) -> io::Result<()> {
    match listing(rt.alloc()) {
        Ok(all) => time_select(rt, def, rows, &all, "WHERE"),
        Err(_) => Ok(()),
    }
}

fn time_ordered(rt: &HostRuntime, def: &TableDef, rows: &[Row]) -> io::Result<()> {
    match ordered(rt.alloc()) {
        Ok(first) => time_select(rt, def, rows, &first, "WHERE, ORDER BY and LIMIT 10"),
        Err(_) => Ok(()),
    }
}

fn time_rows(rt: &HostRuntime, def: &TableDef, count: usize) -> io::Result<()> {
    match rows_of(rt.alloc(), count) {
        Ok(rows) => {
            time_listing(rt, def, rows.as_slice())?;
            time_ordered(rt, def, rows.as_slice())
        }
        Err(_) => Ok(()),
    }
}

/// Times both statements over so many rows.
fn time(rt: &HostRuntime, count: usize) -> io::Result<()> {
    match table(rt.alloc()) {
        Ok(def) => time_rows(rt, &def, count),
        Err(_) => Ok(()),
    }
}

fn main(rt: HostRuntime) -> io::Result<()> {
    for word in env::args(&rt)?.skip(1) {
        let count = match word.as_str() {
            "100000" => 100000,
            "1000000" => 1000000,
            _ => 10000,
        };
        time(&rt, count)?;
    }
    Ok(())
}
