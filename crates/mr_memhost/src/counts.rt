//! What a host counts.
ghost use Rattle.std.specs.Prelude.{◌≡◌};

/// Each count stops at the type's end.
#[derive(Clone, Copy)]
pub struct Counts {
    /// Calls of the disk and of `emit`.
    pub calls: u64,
    pub faults: u64,
    pub emit_faults: u64,
    pub reads: u64,
    pub asked: u64,
    pub syncs: u64,
}

impl Counts {
    pub fn zero() -> Counts
        ensures { result ≡ record { calls = 0; faults = 0; emit_faults = 0; reads = 0; asked = 0; syncs = 0 } }
    {
        Counts {
            calls: 0,
            faults: 0,
            emit_faults: 0,
            reads: 0,
            asked: 0,
            syncs: 0,
        }
    }
}
