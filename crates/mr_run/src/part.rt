//! The statement that a script is in.

ghost use Rattle.std.specs.Prelude.{◌≡◌, ◌++◌, ℕ, List, [], ◌∷◌, false, OnOk, IfOk, take};
ghost use Rattle.mr_lex.specs.Pieces.{is_two_dashes as two_dashes, kept_where_blank};
ghost use Rattle.mr_run.specs.Cutting.{statements_in, left_by};
ghost use Rattle.mr_run.specs.Holding.{Holds, most_kept, given_by};

use mr_base::Memory;
use mr_lex::{Split, Splitter};
use sqlite_items::Items;
use std::alloc::Global;
use std::mem;

/// Of a statement's text so many bytes are kept, one more than it may have.
const MOST_KEPT: usize = 1048577;

fn is_two_dashes(bytes: &[u8]) -> bool
    ensures { result ≡ two_dashes bytes.now }
{
    match bytes {
        [a, b] => *a == b'-' && *b == b'-',
        _ => false,
    }
}

/// Where the bytes since the last end stand, the first ones of the statement's text, and whether it has begun. White space and
/// whole comments in front of a statement are not kept.
#[derive(Drop)]
pub(crate) struct Part {
    pub(crate) splitter: Splitter,
    pub(crate) kept: Items<u8>,
    pub(crate) begun: bool,
}

/// Takes all bytes off. The room that they had stays.
fn empty(bytes: &mut Items<u8>)
    ensures { bytes.new ≡ [] }
{
    while bytes.len() > 0 {
        bytes.pop();
    }
}

impl Part {
    /// Nothing of a statement is read.
    pub(crate) fn new(alloc: Global) -> Part
        ensures { Holds result [] }
    {
        Part {
            splitter: Splitter::new(),
            kept: Items::new(alloc),
            begun: false,
        }
    }

    /// A byte more, where there is room for it.
    fn keep(&mut self, byte: u8) -> Result<(), Memory>
        ensures kept { (all : List ℕ) → self.old.kept ≡ take most_kept all → OnOk result (self.new.kept ≡ take most_kept (all ++ byte ∷ [])) }
        ensures others { (self.new.splitter ≡ self.old.splitter) × (self.new.begun ≡ self.old.begun) }
    {
        if self.kept.len() < MOST_KEPT {
            self.kept.push(byte)?;
        }
        Ok(())
    }

    /// Where all is blank nothing is kept, but for two dashes, which the next byte may take back.
    fn clear_blank(&mut self)
        ensures kept { (all : List ℕ) → self.old.kept ≡ take most_kept all → self.new.kept ≡ take most_kept (kept_where_blank all) }
        ensures others { (self.new.splitter ≡ self.old.splitter) × (self.new.begun ≡ self.old.begun) }
    {
        if !is_two_dashes(self.kept.as_slice()) {
            empty(&mut self.kept);
        }
    }

    /// The kept bytes are a statement's text; the next statement has not begun.
    fn end(&mut self, alloc: Global) -> Items<u8>
        ensures text { result ≡ self.old.kept }
        ensures emptied { (self.new.kept ≡ []) × (self.new.splitter ≡ self.old.splitter) × (self.new.begun ≡ false) }
    {
        self.begun = false;
        mem::replace(&mut self.kept, Items::new(alloc))
    }

    /// Reads the script's next byte. The text of a statement that it ends is answered, which is empty where there is none.
    pub(crate) fn feed(&mut self, alloc: Global, byte: u8) -> Result<Option<Items<u8>>, Memory>
        ensures ended { (since : List ℕ) → Holds self.old since → IfOk result (λ text. given_by text ≡ statements_in since (byte ∷ [])) }
        ensures holds { (since : List ℕ) → Holds self.old since → OnOk result (Holds self.new (left_by since (byte ∷ []))) }
    {
        match self.splitter.feed(byte) {
            Split::End => Ok(Some(self.end(alloc))),
            Split::Blank => {
                self.keep(byte)?;
                self.clear_blank();
                self.begun = false;
                Ok(None)
            }
            Split::Inside => {
                self.keep(byte)?;
                self.begun = true;
                Ok(None)
            }
        }
    }
}
