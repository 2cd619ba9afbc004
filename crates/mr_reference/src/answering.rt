//! The replies of a script.

ghost use Rattle.std.specs.Prelude.{IfOk, IfErr};
ghost use Rattle.mr_reference.specs.Answered.{IsAnswered};
ghost use Rattle.mr_reference.specs.Causes.{IsCause};

use crate::failure::Failure;
use crate::reading::read_script;
use mr_base::{Clock, Source};
use mr_model::{Ran, run_script};
use sqlite_items::Items;
use std::alloc::Global;

/// The replies of the script that the source has, each statement at the clock's next value, where no
/// commit was before.
pub fn answered<S: Source, C: Clock>(
    alloc: Global,
    source: &mut S,
    clock: &mut C,
) -> Result<Ran, Failure>
    ensures answered { IfOk result (λ ran. IsAnswered (S.source source.old) (C.clock clock.old) (C.clock clock.new) ran) }
    ensures cause { IfErr result (IsCause (S.source source.old) (S.source source.new)) }
{
    let script = read_script(alloc, source)?;
    let ran = run_script(alloc, Items::new(alloc), script.as_slice(), clock)?;
    Ok(ran)
}
