//! What a merge of runs is given: a test of what is kept, and a place for new runs.
ghost use Rattle.std.specs.Prelude.{◌≡◌, ◌<◌, ◌+◌, ◌-◌, ◌^◌, ℕ, List, Bool, Some, None, [], min, IsSome, IfSome, IfErr, IfOk, OnOk, OnErr};
ghost use Rattle.std.specs.Option.{option_map};
ghost use Rattle.mr_base.specs.Disk.{Tells, Image, File, seen, file_of, IsAtRest};
ghost use Rattle.mr_base.specs.Calls.{Counts};
ghost use Rattle.mr_base.specs.declared.stop.Direction.{Direction};
ghost use Rattle.mr_iter.specs.Versions.{Version, IsInOrder, version_cmp, as_version};
ghost use Rattle.mr_iter.specs.RunOuts.{OutState, KeepsOthers, MayFail, FitsBehind, with_version, entry_bytes};

use mr_base::{Disk, Stop};

/// A test of entries.
pub trait Filter {
    ghost keeps: { Self → List ℕ → List ℕ → Bool };

    /// Whether an entry with this key and value is kept.
    fn keep(&self, key: &[u8], value: &[u8]) -> bool
        ensures { result ≡ keeps self.now key.now value.now };
}

/// A run: its file's number, the file's length in bytes, and the number of its entries.
#[derive(Clone, Copy, Debug, PartialEq, Eq)]
pub struct RunInfo {
    pub file: u64,
    pub length: u64,
    pub entries: u64,
}

/// A place for new runs, one after another. It changes no file but that of the run that is begun, and it makes no read.
///
/// What is said of contents holds where the versions are added in the order of a cursor of its direction.
pub trait RunOut<D: Disk> {
    ghost out: { Self → OutState };

    /// Whether these bytes are the run with so many entries that has this list.
    ghost run: { Direction → ℕ → List ℕ → List Version → Type 0 };

    /// Bytes are a run of one list at the most, and the number is that of its entries.
    ghost one_run: { (d : Direction) (n m : ℕ) (bytes : List ℕ) (vs ws : List Version) → run d n bytes vs → run d m bytes ws → (n ≡ m) × (vs ≡ ws) };

    /// Whether this file is as its last call left it. A run goes on only where it is.
    ghost stands: { Self → File → Type 0 };

    /// Begins a run in the file with this number. Nothing is touched before the first `add`.
    fn begin(&mut self, file: u64)
        ensures direction { (out self.new).direction ≡ (out self.old).direction }
        ensures file { (out self.new).file ≡ Some file }
        ensures empty { (image : Image) → (out self.new).added image ≡ [] }
        ensures bytes { (out self.new).bytes ≡ 0 }
        ensures stands { (f : File) → stands self.new f };

    /// Adds a version; `put` is None for a deletion. Takes memory. After an error a run has to be begun anew.
    fn add(
        &mut self,
        disk: &mut D,
        key: &[u8],
        sequence: u64,
        put: Option<&[u8]>,
    ) -> Result<(), Stop>
        requires begun { IsSome (out self.old).file }
        requires stands { Tells (D.disk disk.old) → IfSome (out self.old).file (λ f. stands self.old (file_of (D.disk disk.old) f)) }
        ensures direction { (out self.new).direction ≡ (out self.old).direction }
        ensures file { OnOk result ((out self.new).file ≡ (out self.old).file) }
        ensures closed { OnErr result ((out self.new).file ≡ None) }
        ensures counts { Counts 0 0 0 (D.disk disk.old) (D.disk disk.new) }
        ensures others { Tells (D.disk disk.old) → IfSome (out self.old).file (λ f. KeepsOthers f (D.disk disk.old) (D.disk disk.new)) }
        ensures stops { IfErr result (MayFail (D.disk disk.old) (D.disk disk.new)) }
        ensures bytes { OnOk result ((out self.new).bytes ≡ (out self.old).bytes + entry_bytes (as_version key.now sequence (option_map (λ v. v.now) put.entry))) }
        ensures added { Tells (D.disk disk.old) → FitsBehind (out self.old).direction ((out self.old).added (seen (D.disk disk.old))) (as_version key.now sequence (option_map (λ v. v.now) put.entry)) → OnOk result ((out self.new).added (seen (D.disk disk.new)) ≡ with_version ((out self.old).added (seen (D.disk disk.old))) (as_version key.now sequence (option_map (λ v. v.now) put.entry))) }
        ensures stands { Tells (D.disk disk.old) → IfSome (out self.old).file (λ f. OnOk result (stands self.new (file_of (D.disk disk.new) f))) };

    /// The bytes of the entries since `begin`, or the greatest number where they are more.
    fn bytes(&self) -> u64
        ensures { result ≡ min (out self.now).bytes (2 ^ 64 - 1) };

    /// Makes the versions since `begin` a run, which a crash afterwards leaves just as a read gives it. Takes memory. A run has
    /// to be begun anew behind it.
    fn finish(&mut self, disk: &mut D) -> Result<RunInfo, Stop>
        requires begun { IsSome (out self.old).file }
        requires some { 0 < (out self.old).bytes }
        requires stands { Tells (D.disk disk.old) → IfSome (out self.old).file (λ f. stands self.old (file_of (D.disk disk.old) f)) }
        ensures direction { (out self.new).direction ≡ (out self.old).direction }
        ensures closed { (out self.new).file ≡ None }
        ensures counts { Counts 0 0 1 (D.disk disk.old) (D.disk disk.new) }
        ensures others { Tells (D.disk disk.old) → IfSome (out self.old).file (λ f. KeepsOthers f (D.disk disk.old) (D.disk disk.new)) }
        ensures stops { IfErr result (MayFail (D.disk disk.old) (D.disk disk.new)) }
        ensures named { IfOk result (λ i. (out self.old).file ≡ Some i.file) }
        ensures length { Tells (D.disk disk.old) → IfOk result (λ i. Rattle.std.specs.Prelude.length (file_of (D.disk disk.new) i.file).bytes ≡ i.length) }
        ensures written { Tells (D.disk disk.old) → IsInOrder (version_cmp (out self.old).direction) ((out self.old).added (seen (D.disk disk.old))) → IfOk result (λ i. run (out self.old).direction i.entries (file_of (D.disk disk.new) i.file).bytes ((out self.old).added (seen (D.disk disk.old)))) }
        ensures entries { Tells (D.disk disk.old) → IsInOrder (version_cmp (out self.old).direction) ((out self.old).added (seen (D.disk disk.old))) → IfOk result (λ i. i.entries ≡ Rattle.std.specs.Prelude.length ((out self.old).added (seen (D.disk disk.old)))) }
        ensures durable { Tells (D.disk disk.old) → IfOk result (λ i. IsAtRest (file_of (D.disk disk.new) i.file)) };

    /// The list is what the file of its run says.
    ghost by_file: { (o : Self) (i j : Image) → IfSome (out o).file (λ f. i f ≡ j f) → (out o).added i ≡ (out o).added j };
}
