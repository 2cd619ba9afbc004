//! Worked scripts, run by the plain program.

ghost use Rattle.std.specs.Prelude.{IfOk, IfSome};
ghost use Rattle.mr_schema.specs.Few.{FewColumns};

use crate::replies::ROWS;
use mr_base::{Clock, Memory};
use mr_model::{Ran, run_script};
use mr_types::Commit;
use sqlite_items::Items;
use std::alloc::Global;
use std::test::Fail;

/// A clock that gives these values, and then 0, with which the moment stays.
#[derive(Drop)]
struct Values<'a> {
    left: &'a [u8],
}

impl Clock for Values<'_> {
    ghost use Rattle.std.specs.Prelude.{false};

    ghost clock = { λ c. record { tells = false; values = λ k. 0 } };

    fn now(&mut self) -> u64 {
        match self.left {
            [] => 0,
            [first, rest @ ..] => {
                self.left = rest;
                *first as u64
            }
        }
    }
}

/// What stands before the first 0xfd, and what stands behind it, nothing where there is none.
fn halves(row: &[u8]) -> (&[u8], &[u8]) {
    for (i, byte) in row.iter().enumerate() {
        if *byte == 0xfd {
            return (&row[..i], &row[i + 1..]);
        }
    }
    (row, &[])
}

/// The run of a script on these commits, where the clock gives these values.
fn run_on(
    alloc: Global,
    commits: Items<Commit>,
    values: &[u8],
    script: &[u8],
) -> Result<Ran, Memory>
    requires few { FewColumns commits }
    ensures few { IfOk result (λ ran. FewColumns ran.commits) }
{
    run_script(alloc, commits, script, &mut Values { left: values })
}

/// Its commits, None where its replies are others.
fn commits_of(
    alloc: Global,
    values: &[u8],
    script: &[u8],
    replies: &[u8],
) -> Result<Option<Items<Commit>>, Memory>
    ensures few { IfOk result (λ found. IfSome found (λ commits. FewColumns commits)) }
{
    let ran = run_on(alloc, Items::new(alloc), values, script)?;
    if ran.output.as_slice() == replies {
        Ok(Some(ran.commits))
    } else {
        Ok(None)
    }
}

/// Whether a run on these commits gives the replies of a row.
fn is_right_on(alloc: Global, commits: Items<Commit>, row: &[u8]) -> Result<bool, Memory>
    requires few { FewColumns commits }
{
    let (values, rest) = halves(row);
    let (script, replies) = halves(rest);
    let ran = run_on(alloc, commits, values, script)?;
    Ok(ran.output.as_slice() == replies)
}

/// Whether a run gives its replies, and one on its commits the replies behind them.
fn is_right(alloc: Global, row: &[u8]) -> Result<bool, Memory> {
    let (values, rest) = halves(row);
    let (script, rest) = halves(rest);
    let (replies, second) = halves(rest);
    match commits_of(alloc, values, script, replies)? {
        Some(commits) => is_right_on(alloc, commits, second),
        None => Ok(false),
    }
}

#[test]
fn scripts_have_their_replies(rt: HostRuntime) -> Result<(), Fail> {
    for row in ROWS.split(|byte| *byte == 0xfe).skip(1) {
        let (what, rest) = halves(row);
        assert!(rt; is_right(rt.alloc(), rest)?, "{what:?}");
    }
    Ok(())
}

/// A statement of so many bytes, and one behind it.
fn long_script(alloc: Global, length: usize) -> Result<Vec<u8>, Memory> {
    let mut script = Vec::new(alloc);
    script.resize(length, b'x')?;
    script.extend_from_slice(b";COMMIT;")?;
    Ok(script)
}

/// Whether a script whose first statement has so many bytes gives these replies.
fn gives(alloc: Global, length: usize, replies: &[u8]) -> Result<bool, Memory> {
    let script = long_script(alloc, length)?;
    let ran = run_on(alloc, Items::new(alloc), &[7], &script)?;
    Ok(ran.output.as_slice() == replies)
}

#[test]
fn statements_are_too_long(rt: HostRuntime) -> Result<(), Fail> {
    assert!(rt; gives(rt.alloc(), 1_048_576, b"ERROR 1064\nOK 0\n")?);
    assert!(rt; gives(rt.alloc(), 1_048_577, b"ERROR 1153\nOK 0\n")?);
    Ok(())
}

/// Whether some reply of the script is an `ERROR`.
fn fails(alloc: Global, script: &[u8]) -> Result<bool, Memory> {
    Ok(run_on(alloc, Items::new(alloc), &[], script)?.failed)
}

#[test]
fn a_run_tells_whether_it_failed(rt: HostRuntime) -> Result<(), Fail> {
    assert!(rt; fails(rt.alloc(), b"COMMIT; RELEASE SAVEPOINT p; COMMIT;")?);
    assert!(rt; !fails(rt.alloc(), b"COMMIT; WORK 1;")?);
    Ok(())
}
