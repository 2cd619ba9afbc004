//! The run of a script.

ghost use Rattle.std.specs.Prelude.{◌≡◌, ◌++◌, [], OnOk, OnErr, IfOk};
ghost use Rattle.mr_schema.specs.Few.{FewColumns};
ghost use Rattle.mr_model.specs.Running.{IsRunFrom, IsRun, IsSpent, IsPartlySpent};
ghost use Rattle.mr_model_engine.specs.Worlds.{world_in};
ghost use Rattle.mr_spec.specs.ReplyText.{text_of};
ghost use Rattle.mr_spec.specs.ScriptRun.{is_refusal as refusal_of, statements_of as statements_in};

use crate::cutting::{Read, statements_of};
use crate::statement_step::step;
use mr_base::{Blob, Clock, Memory};
use mr_model_engine::Engine;
use mr_print::reply_text;
use mr_types::{Commit, Reply};
use sqlite_items::Items;
use std::alloc::Global;

/// What a script's run gave: the texts of its replies, one after the other, whether one of them was
/// an `ERROR`, and the commits from before with those that it appended.
#[derive(Drop)]
pub struct Ran {
    pub output: Blob,
    pub failed: bool,
    pub commits: Items<Commit>,
}

/// The engine, and what the statements so far gave.
#[derive(Drop)]
pub(crate) struct Player {
    engine: Engine,
    output: Vec<u8>,
    failed: bool,
}

fn is_refusal(reply: &Reply) -> bool
    ensures { result ≡ refusal_of reply.now }
{
    matches!(reply, Reply::Refused(_))
}

fn print(alloc: Global, output: &mut Vec<u8>, reply: &Reply) -> Result<(), Memory>
    ensures { OnOk result (output.new.items ≡ output.old.items ++ text_of reply.now) }
{
    let text = reply_text(alloc, reply)?;
    output.extend_from_slice(text.as_slice())?;
    Ok(())
}

impl Player {
    ghost use Rattle.mr_model.specs.Running.{IsServed, IsTaken};

    /// One statement, at the clock's next value.
    fn serve<C: Clock>(
        &mut self,
        alloc: Global,
        clock: &mut C,
        statement: &Read,
    ) -> Result<(), Memory>
        requires few { FewColumns self.old.engine.commits }
        ensures served { OnOk result (IsServed (C.clock clock.old) (C.clock clock.new) self.old self.new statement.now) }
        ensures few { OnOk result (FewColumns self.new.engine.commits) }
        ensures taken { IsTaken (C.clock clock.old) (C.clock clock.new) }
    {
        let value = clock.now();
        let reply = step(alloc, &mut self.engine, statement, value)?;
        print(alloc, &mut self.output, &reply)?;
        self.failed |= is_refusal(&reply);
        Ok(())
    }
}

/// The run of these statements from this engine.
fn run_from<C: Clock>(
    alloc: Global,
    engine: Engine,
    statements: &[Read],
    clock: &mut C,
) -> Result<Ran, Memory>
    requires few { FewColumns engine.commits }
    ensures run { IfOk result (λ ran. IsRunFrom (world_in engine) statements.now (C.clock clock.old) ran) }
    ensures values { OnOk result (IsSpent (C.clock clock.old) (C.clock clock.new) statements.now []) }
    ensures at_most { OnErr result (IsPartlySpent (C.clock clock.old) (C.clock clock.new) statements.now) }
    ensures few { IfOk result (λ ran. FewColumns ran.commits) }
{
    let mut player = Player {
        engine,
        output: Vec::new(alloc),
        failed: false,
    };
    for statement in statements {
        player.serve(alloc, clock, statement)?;
    }
    let Player {
        engine,
        output,
        failed,
    } = player;
    Ok(Ran {
        output: Blob::from_vec(output),
        failed,
        commits: engine.commits,
    })
}

/// The run of a script where these commits were before. It takes one value of the clock a statement,
/// and no more where memory runs out.
#[tactic(auto, using(crate::proofs::RunSteps::none_served))]
pub fn run_script<C: Clock>(
    alloc: Global,
    commits: Items<Commit>,
    script: &[u8],
    clock: &mut C,
) -> Result<Ran, Memory>
    requires few { FewColumns commits }
    ensures run { IfOk result (λ ran. IsRun commits script.now (C.clock clock.old) ran) }
    ensures values { OnOk result (IsSpent (C.clock clock.old) (C.clock clock.new) (statements_in script.now) []) }
    ensures at_most { OnErr result (IsPartlySpent (C.clock clock.old) (C.clock clock.new) (statements_in script.now)) }
    ensures few { IfOk result (λ ran. FewColumns ran.commits) }
{
    let statements = statements_of(alloc, script)?;
    let engine = Engine::reopened(alloc, commits)?;
    run_from(alloc, engine, statements.as_slice(), clock)
}
