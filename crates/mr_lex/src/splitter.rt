//! Where the statements of a script end.

ghost use Rattle.std.specs.Prelude.{◌≡◌, ◌==◌, ◌&&◌};
ghost use Rattle.mr_lex.specs.Cutting.{is_outside as outside};
ghost use Rattle.mr_lex.specs.Resting.{told_at};

use crate::place::{Place, Split, is_outside, is_whole, next_blank, next_place};

/// Whether this byte ends a statement.
fn ends_here(place: Place, byte: u8) -> bool
    ensures { result ≡ (byte == 59 && outside place) }
{
    byte == b';' && is_outside(place)
}

/// What is told of a byte that ends nothing.
fn told(place: Place, blank: bool) -> Split
    ensures { result ≡ told_at place blank }
{
    if blank && is_whole(place) {
        Split::Blank
    } else {
        Split::Inside
    }
}

/// Reads a script byte by byte.
#[derive(Clone, Copy, Drop)]
pub struct Splitter {
    place: Place,
    blank: bool,
}

impl Splitter {
    ghost use Rattle.std.specs.Prelude.{ℕ, List, []};
    ghost use Rattle.mr_lex.specs.Cutting.{split_of, since_with};
    ghost use Rattle.mr_lex.specs.Standing.{HasRead};

    /// At the begin of a script.
    pub fn new() -> Splitter
        ensures { HasRead result [] }
    {
        Splitter {
            place: Place::Plain,
            blank: true,
        }
    }

    /// Reads the next byte of the script.
    pub fn feed(&mut self, byte: u8) -> Split
        ensures told { (since : List ℕ) → HasRead self.old since → result ≡ split_of since byte }
        ensures read { (since : List ℕ) → HasRead self.old since → HasRead self.new (since_with since byte) }
    {
        if ends_here(self.place, byte) {
            *self = Splitter::new();
            return Split::End;
        }
        self.blank = next_blank(self.place, self.blank, byte);
        self.place = next_place(self.place, byte);
        told(self.place, self.blank)
    }
}
