//! A script, cut into statements.

ghost use Rattle.std.specs.Prelude.{◌≡◌, IfOk};
ghost use Rattle.mr_lex.specs.Pieces.{is_two_dashes as two_dashes};
ghost use Rattle.mr_spec.specs.Grammar.{parsed};
ghost use Rattle.mr_spec.specs.ScriptRun.{statements_of as statements_in};

use mr_base::Memory;
use mr_lex::{Split, Splitter, pieces_cut_alike};
use mr_parse::parse_statement;
use mr_types::{Refused, Statement};
use sqlite_items::Items;
use std::alloc::Global;
use std::mem;

/// A statement, or the refusal of a text that is none.
pub type Read = Result<Statement, u16>;

pub type ReadList = Items<Read>;

/// Reads a script byte by byte: `kept` is the text so far of the statement that it is in, and
/// `has_rest` says whether the bytes since the last end are a statement's, should the script end.
#[derive(Drop)]
pub(crate) struct Cutter {
    splitter: Splitter,
    kept: Items<u8>,
    has_rest: bool,
    read: ReadList,
}

/// The statement of this text, or its refusal.
fn read_text(alloc: Global, text: &[u8]) -> Result<Read, Memory>
    ensures { IfOk result (λ read. read ≡ parsed text.now) }
{
    match parse_statement(alloc, text) {
        Ok(statement) => Ok(Ok(statement)),
        Err(Refused::Sql(code)) => Ok(Err(code)),
        Err(Refused::Memory) => Err(Memory),
    }
}

fn is_two_dashes(bytes: &[u8]) -> bool
    ensures { result ≡ two_dashes bytes.now }
{
    match bytes {
        [a, b] => *a == b'-' && *b == b'-',
        _ => false,
    }
}

impl Cutter {
    ghost use Rattle.std.specs.Prelude.{◌++◌, ◌∷◌, [], false, map, OnOk};
    ghost use Rattle.mr_lex.specs.Cutting.{as_part};
    ghost use Rattle.mr_lex.specs.Pieces.{Reader, start, read_byte, finished, kept_where_blank};
    ghost use Rattle.mr_spec.specs.ScriptRun.{read_part};
    ghost use Rattle.mr_model.specs.Cuts.{Holds};

    fn new(alloc: Global) -> Cutter
        ensures { Holds result start }
    {
        Cutter {
            splitter: Splitter::new(),
            kept: Items::new(alloc),
            has_rest: false,
            read: Items::new(alloc),
        }
    }

    fn keep(&mut self, byte: u8) -> Result<(), Memory>
        ensures { OnOk result ((self.new.kept ≡ self.old.kept ++ byte ∷ []) × (self.new.splitter ≡ self.old.splitter) × (self.new.has_rest ≡ self.old.has_rest) × (self.new.read ≡ self.old.read)) }
    {
        self.kept.push(byte)?;
        Ok(())
    }

    /// The kept bytes are a statement's text, where there are any.
    fn end(&mut self, alloc: Global) -> Result<(), Memory>
        ensures { OnOk result ((self.new.kept ≡ []) × (self.new.splitter ≡ self.old.splitter) × (self.new.has_rest ≡ false) × (self.new.read ≡ self.old.read ++ map read_part (as_part self.old.kept))) }
    {
        self.has_rest = false;
        let text = mem::replace(&mut self.kept, Items::new(alloc));
        if text.is_empty() {
            return Ok(());
        }
        self.read.push(read_text(alloc, text.as_slice())?)?;
        Ok(())
    }

    /// Where all is blank nothing is kept, but for two dashes, which the next byte may take back.
    fn clear_blank(&mut self, alloc: Global)
        ensures { (self.new.kept ≡ kept_where_blank self.old.kept) × (self.new.splitter ≡ self.old.splitter) × (self.new.has_rest ≡ false) × (self.new.read ≡ self.old.read) }
    {
        self.has_rest = false;
        if !is_two_dashes(self.kept.as_slice()) {
            self.kept = Items::new(alloc);
        }
    }

    /// The script's next byte.
    fn feed(&mut self, alloc: Global, byte: u8) -> Result<(), Memory>
        ensures { OnOk result ((r : Reader) → Holds self.old r → Holds self.new (read_byte r byte)) }
    {
        match self.splitter.feed(byte) {
            Split::End => self.end(alloc),
            Split::Blank => {
                self.keep(byte)?;
                self.clear_blank(alloc);
                Ok(())
            }
            Split::Inside => {
                self.keep(byte)?;
                self.has_rest = true;
                Ok(())
            }
        }
    }

    /// At the script's end.
    fn finish(self) -> Result<ReadList, Memory>
        ensures { IfOk result (λ all. (r : Reader) → Holds self r → all ≡ map read_part (finished r)) }
    {
        let mut read = self.read;
        if self.has_rest {
            read.push(Err(1064))?;
        }
        Ok(read)
    }
}

/// The statements of a script.
pub fn statements_of(alloc: Global, script: &[u8]) -> Result<ReadList, Memory>
    ensures { IfOk result (λ all. all ≡ statements_in script.now) }
{
    pieces_cut_alike();
    let mut cutter = Cutter::new(alloc);
    for byte in script {
        cutter.feed(alloc, *byte)?;
    }
    cutter.finish()
}
