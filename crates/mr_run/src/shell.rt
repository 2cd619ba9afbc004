//! A script in pieces.

ghost use Rattle.std.specs.Prelude.{◌≡◌, ◌≢◌, ℕ, List, [], ◌∷◌, None, OnOk, IfOk, IfErr, map};
ghost use Rattle.mr_lex.specs.Cutting.{as_part, rest_of};
ghost use Rattle.mr_sound.specs.Sound.{IsSpelled};
ghost use Rattle.mr_spec.specs.Grammar.{parsed};
ghost use Rattle.mr_spec.specs.ScriptRun.{read_part};
ghost use Rattle.mr_commit_log.specs.Appending.{early};
ghost use Rattle.mr_commit_log.specs.Causes.{GoesOn, IsCausedBy};
ghost use Rattle.mr_serve.specs.Serving.{IsServing};
ghost use Rattle.mr_run.specs.Clocks.{clock_of, Goes};
ghost use Rattle.mr_run.specs.Cutting.{statements_in, left_by};
ghost use Rattle.mr_run.specs.Holding.{Holds, given_by};
ghost use Rattle.mr_run.specs.Serving.{Serves};

use crate::clocks::next_value;
use crate::part::Part;
use mr_base::{Clock, Host, Memory};
use mr_commit_log::Ending;
use mr_model::Read;
use mr_parse::parse_statement;
use mr_serve::Server;
use mr_types::Refused;
use std::alloc::Global;

/// The statement of a text, or its refusal.
fn read_text(alloc: Global, text: &[u8]) -> Result<Read, Memory>
    ensures read { IfOk result (λ read. read ≡ parsed text.now) }
    ensures spelled { IfOk result IsSpelled }
{
    match parse_statement(alloc, text) {
        Ok(statement) => Ok(Ok(statement)),
        Err(Refused::Sql(code)) => Ok(Err(code)),
        Err(Refused::Memory) => Err(Memory),
    }
}

/// A server, the value that is given for each statement, if one is, and the statement that the script is in.
#[derive(Drop)]
pub(crate) struct Shell {
    pub(crate) server: Server,
    pub(crate) given: Option<u64>,
    pub(crate) part: Part,
}

impl Shell {
    /// Serves a statement at the given value, or at the clock's next one where none is given.
    fn serve_next<H: Host, C: Clock>(
        &mut self,
        alloc: Global,
        host: &mut H,
        clock: &mut C,
        statement: &Read,
    ) -> Result<(), Ending>
        requires serving { IsServing self.old.server (H.disk host.old) }
        requires spelled { IsSpelled statement.now }
        ensures serving { OnOk result (IsServing self.new.server (H.disk host.new)) }
        ensures serves { Serves self.old.server self.new.server (clock_of self.old.given (C.clock clock.old)) (clock_of self.old.given (C.clock clock.new)) (H.disk host.old) (H.disk host.new) (early result) (statement.now ∷ []) }
        ensures others { (self.new.given ≡ self.old.given) × (self.new.part ≡ self.old.part) }
        ensures clock { Goes self.old.given (C.clock clock.old) (C.clock clock.new) }
        ensures limit { self.new.server.log.gate.limit ≡ self.old.server.log.gate.limit }
        ensures goes_on { GoesOn (H.disk host.old) (H.disk host.new) }
        ensures cause { IfErr result (IsCausedBy self.old.server.log.gate.limit (H.disk host.old) (H.disk host.new)) }
    {
        let value = next_value(self.given, clock);
        self.server.serve(alloc, host, statement, value)
    }

    /// Serves the statement of a text, which is none where it is empty.
    fn serve_text<H: Host, C: Clock>(
        &mut self,
        alloc: Global,
        host: &mut H,
        clock: &mut C,
        text: &[u8],
    ) -> Result<(), Ending>
        requires serving { IsServing self.old.server (H.disk host.old) }
        ensures serving { OnOk result (IsServing self.new.server (H.disk host.new)) }
        ensures serves { Serves self.old.server self.new.server (clock_of self.old.given (C.clock clock.old)) (clock_of self.old.given (C.clock clock.new)) (H.disk host.old) (H.disk host.new) (early result) (map read_part (as_part text.now)) }
        ensures others { (self.new.given ≡ self.old.given) × (self.new.part ≡ self.old.part) }
        ensures clock { Goes self.old.given (C.clock clock.old) (C.clock clock.new) }
        ensures limit { self.new.server.log.gate.limit ≡ self.old.server.log.gate.limit }
        ensures goes_on { GoesOn (H.disk host.old) (H.disk host.new) }
        ensures cause { IfErr result (IsCausedBy self.old.server.log.gate.limit (H.disk host.old) (H.disk host.new)) }
    {
        if text.is_empty() {
            return Ok(());
        }
        let statement = read_text(alloc, text)?;
        self.serve_next(alloc, host, clock, &statement)
    }

    /// Takes the script's next byte, and serves the statement that it ends.
    fn feed<H: Host, C: Clock>(
        &mut self,
        alloc: Global,
        host: &mut H,
        clock: &mut C,
        byte: u8,
    ) -> Result<(), Ending>
        requires serving { IsServing self.old.server (H.disk host.old) }
        ensures serving { OnOk result (IsServing self.new.server (H.disk host.new)) }
        ensures serves { (since : List ℕ) → Holds self.old.part since → Serves self.old.server self.new.server (clock_of self.old.given (C.clock clock.old)) (clock_of self.old.given (C.clock clock.new)) (H.disk host.old) (H.disk host.new) (early result) (statements_in since (byte ∷ [])) }
        ensures holds { (since : List ℕ) → Holds self.old.part since → OnOk result (Holds self.new.part (left_by since (byte ∷ []))) }
        ensures given { self.new.given ≡ self.old.given }
        ensures clock { Goes self.old.given (C.clock clock.old) (C.clock clock.new) }
        ensures limit { self.new.server.log.gate.limit ≡ self.old.server.log.gate.limit }
        ensures goes_on { GoesOn (H.disk host.old) (H.disk host.new) }
        ensures cause { IfErr result (IsCausedBy self.old.server.log.gate.limit (H.disk host.old) (H.disk host.new)) }
    {
        match self.part.feed(alloc, byte)? {
            None => Ok(()),
            Some(text) => self.serve_text(alloc, host, clock, text.as_slice()),
        }
    }

    /// Takes the next piece of the script.
    pub(crate) fn feed_all<H: Host, C: Clock>(
        &mut self,
        alloc: Global,
        host: &mut H,
        clock: &mut C,
        bytes: &[u8],
    ) -> Result<(), Ending>
        requires serving { IsServing self.old.server (H.disk host.old) }
        ensures serving { OnOk result (IsServing self.new.server (H.disk host.new)) }
        ensures serves { (since : List ℕ) → Holds self.old.part since → Serves self.old.server self.new.server (clock_of self.old.given (C.clock clock.old)) (clock_of self.old.given (C.clock clock.new)) (H.disk host.old) (H.disk host.new) (early result) (statements_in since bytes.now) }
        ensures holds { (since : List ℕ) → Holds self.old.part since → OnOk result (Holds self.new.part (left_by since bytes.now)) }
        ensures given { self.new.given ≡ self.old.given }
        ensures clock { Goes self.old.given (C.clock clock.old) (C.clock clock.new) }
        ensures limit { self.new.server.log.gate.limit ≡ self.old.server.log.gate.limit }
        ensures goes_on { GoesOn (H.disk host.old) (H.disk host.new) }
        ensures cause { IfErr result (IsCausedBy self.old.server.log.gate.limit (H.disk host.old) (H.disk host.new)) }
    {
        for byte in bytes {
            self.feed(alloc, host, clock, *byte)?;
        }
        Ok(())
    }

    /// Serves what stands at the script's end: a statement that no `;` ends is none.
    pub(crate) fn finish<H: Host, C: Clock>(
        &mut self,
        alloc: Global,
        host: &mut H,
        clock: &mut C,
    ) -> Result<(), Ending>
        requires serving { IsServing self.old.server (H.disk host.old) }
        ensures serves { (since : List ℕ) → Holds self.old.part since → Serves self.old.server self.new.server (clock_of self.old.given (C.clock clock.old)) (clock_of self.old.given (C.clock clock.new)) (H.disk host.old) (H.disk host.new) (early result) (map read_part (rest_of since)) }
        ensures clock { Goes self.old.given (C.clock clock.old) (C.clock clock.new) }
        ensures limit { self.new.server.log.gate.limit ≡ self.old.server.log.gate.limit }
        ensures goes_on { GoesOn (H.disk host.old) (H.disk host.new) }
        ensures cause { IfErr result (IsCausedBy self.old.server.log.gate.limit (H.disk host.old) (H.disk host.new)) }
    {
        if !self.part.begun {
            return Ok(());
        }
        self.serve_next(alloc, host, clock, &Err(1064))
    }
}
