//! What a writing statement's rows are judged by, and why it stops.

ghost use Rattle.std.specs.Prelude.{◌≡◌, ℕ, Result};
ghost use Rattle.mr_types.specs.Values.{Answers};
ghost use Rattle.mr_spec.specs.Progress.{told as told_of};
ghost use Rattle.mr_model_changes.specs.Telling.{Tells};

use mr_base::Memory;
use mr_spec::Refusal;
use mr_types::{Change, Refused, TableDef};

/// What a row's handling looks at: the definition, the moment, the changes of this table that other
/// sessions hold, and those of the commits behind the session's snapshot.
#[derive(Clone, Copy)]
pub struct Scene<'a> {
    pub def: &'a TableDef,
    pub moment: u64,
    pub held: &'a [Change],
    pub changed: &'a [Change],
}

/// Why a writing statement stops.
#[derive(Clone, Copy, Drop)]
pub enum Failed {
    Memory,
    /// The refusal, and the next hidden number.
    Refused(Refusal),
}

impl From<Memory> for Failed {
    ghost use Rattle.mr_model_changes.specs.declared.scene.Failed.TheVariants.{Memory as OfMemory};

    ghost from_gives = { λ _ e. e ≡ OfMemory };

    fn from(_: Memory) -> Self {
        Failed::Memory
    }
}

/// An answer as it is, and a refusal with the next hidden number.
pub(crate) fn told<T: Drop>(next: u64, answer: Result<T, Refused>) -> Result<T, Failed>
    ensures { (given : Result T ℕ) → Answers answer given → Tells result (told_of next given) }
{
    match answer {
        Ok(value) => Ok(value),
        Err(Refused::Memory) => Err(Failed::Memory),
        Err(Refused::Sql(code)) => Err(Failed::Refused(Refusal { code, next })),
    }
}
