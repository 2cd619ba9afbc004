//! Which image a crash leaves.
ghost use Rattle.std.specs.Prelude.{◌≡◌, ◌<◌, ℕ};

/// Which of the images that the disk allows a crash leaves.
#[derive(Clone, Copy, Debug, PartialEq, Eq)]
pub enum Choice {
    /// The files as a read gives them.
    Keep,
    /// The files as at their last syncs.
    Drop,
    /// The lengths as read, and this byte at each unsynced place.
    Fill(u8),
}

/// What becomes of a write or a cut.
#[derive(Clone, Copy)]
pub enum Fate {
    Done,
    Undone,
    /// The place is written, but with this byte throughout.
    Filled(u8),
}

impl Choice {
    ghost use Rattle.mr_memhost.specs.declared.choice.Fate.TheVariants.{Filled};
    ghost use Rattle.mr_memhost.specs.Crash.{fate};

    /// What becomes of a call since the file's last sync.
    pub(crate) fn fate(self) -> Fate
        ensures fate { result ≡ fate self }
        ensures byte { (byte : ℕ) → result ≡ Filled byte → byte < 256 }
    {
        match self {
            Choice::Keep => Fate::Done,
            Choice::Drop => Fate::Undone,
            Choice::Fill(byte) => Fate::Filled(byte),
        }
    }
}

impl Fate {
    ghost use Rattle.mr_memhost.specs.Crash.{at_step};

    /// Where this becomes of the calls since the file's last sync: what becomes of one before it or since.
    pub(crate) fn at_step(self, is_synced: bool) -> Fate
        ensures { result ≡ at_step self is_synced }
    {
        if is_synced { Fate::Done } else { self }
    }
}
