//! A finite ordered list of versions, and a place in it.
ghost use Rattle.std.specs.Prelude.{◌≡◌, ◌<◌, ◌≤◌, ℕ, List, Option, IsTrue, IsSome, IfSome, IfErr, OnOk, OnErr, is_some, is_none, unwrap_or, [], None};
ghost use Rattle.mr_base.specs.Disk.{Tells, Image, seen};
ghost use Rattle.mr_base.specs.Calls.{Same, Counts, Reads};
ghost use Rattle.mr_iter.specs.Versions.{Version, IsInOrder, version_cmp, from_key};
ghost use Rattle.mr_iter.specs.Cursors.{CursorState, left, SameList, SameFiles, SaysSame, CountsStep, MayStop, IsInPlace, IsWithinBound, IsWithinEnd, GrowsToEnd};

use mr_base::{Disk, Stop};

/// What a cursor means, whatever disk it reads: a list of versions, by key in its direction and then by sequence number, the
/// greatest first, and a place in the list.
pub trait Listed {
    ghost cursor: { Self → CursorState };

    /// Whether it is a whole cursor of what the files in this image have.
    ghost whole: { Self → Image → Type 0 };

    /// Whether this file and place are an offence of its files in this image. Damage is told only there.
    ghost offends: { Self → Image → ℕ → ℕ → Type 0 };

    /// Whether it stands in its list as a seek and the steps behind it left it.
    ghost steady: { Self → Image → Type 0 };

    /// Whether it stands behind the last version.
    fn at_end(&self) -> bool
        ensures { result ≡ is_none (cursor self.now).current };

    /// The key of the version that it stands on.
    fn key(&self) -> &[u8]
        requires { IsSome (cursor self.now).current }
        ensures { IfSome (cursor self.now).current (λ v. result.now ≡ v.key) };

    /// The value, empty for a deletion.
    fn value(&self) -> &[u8]
        requires { IsSome (cursor self.now).current }
        ensures { IfSome (cursor self.now).current (λ v. result.now ≡ unwrap_or v.put []) };

    /// The sequence number.
    fn sequence(&self) -> u64
        requires { IsSome (cursor self.now).current }
        ensures { IfSome (cursor self.now).current (λ v. result ≡ v.sequence) };

    /// False for a deletion.
    fn is_put(&self) -> bool
        requires { IsSome (cursor self.now).current }
        ensures { IfSome (cursor self.now).current (λ v. result ≡ is_some v.put) };

    /// No cursor is whole where its files have an offence.
    ghost not_whole: { (c : Self) (image : Image) (file at : ℕ) → offends c image file at → whole c image → ⊥ };

    /// What is left of a whole cursor is in order, and so is its list.
    ghost in_order: { (c : Self) (image : Image) → whole c image → IsInOrder (version_cmp (cursor c).direction) (left (cursor c) image) × IsInOrder (version_cmp (cursor c).direction) ((cursor c).versions image) };

    /// What it means is what its files say: its list and its place there, and its bounds.
    ghost by_files: { (c : Self) (i j : Image) → SameFiles (cursor c).files i j → whole c i → whole c j × (steady c i → steady c j) × SaysSame (cursor c) i j };

    /// The offences are what its files say.
    ghost offends_by_files: { (c : Self) (i j : Image) (file at : ℕ) → SameFiles (cursor c).files i j → offends c i file at → offends c j file at };

    /// What is left of a steady one is an end of its list.
    ghost in_place: { (c : Self) (image : Image) → whole c image → steady c image → IsInPlace (cursor c) image };

    /// What a steady one read since a seek is within its bound, where no version stands twice.
    ghost costs: { (c : Self) (image : Image) (k : List ℕ) → whole c image → steady c image → IsTrue ((cursor c).distinct image) → IsTrue ((cursor c).sought k) → IsWithinBound (cursor c) image k };

    /// No bound is above that of the end.
    ghost to_end: { (c : Self) (image : Image) (k : List ℕ) (place : Option Version) → whole c image → GrowsToEnd (cursor c) image k place };

    /// Steps are left where it stands on a version.
    ghost going: { (c : Self) → is_some (cursor c).current ≡ Rattle.std.specs.Prelude.true → 0 < (cursor c).steps };

    /// No more steps are left than ever can be.
    ghost bounded: { (c : Self) → (cursor c).steps ≤ (cursor c).most };
}

/// Moves over a list of versions. No move changes what is on the disk. After an error it stands at the end, and has read no
/// more than a walk up to there may.
pub trait Cursor<D: Disk>: Listed {
    /// Goes to the first version whose key isn't before this key. Takes memory.
    fn seek(&mut self, disk: &mut D, key: &[u8]) -> Result<(), Stop>
        ensures list { SameList (Self.cursor self.old) (Self.cursor self.new) }
        ensures counts { Counts (Self.cursor self.new).reads (Self.cursor self.new).asked 0 (D.disk disk.old) (D.disk disk.new) }
        ensures same { Tells (D.disk disk.old) → Same (D.disk disk.old) (D.disk disk.new) }
        ensures stops { IfErr result (MayStop (Self.offends self.old) (D.disk disk.old) (D.disk disk.new)) }
        ensures at_end { OnErr result ((Self.cursor self.new).current ≡ None) }
        ensures offends { (image : Image) (file at : ℕ) → Self.offends self.new image file at → Self.offends self.old image file at }
        ensures whole { Tells (D.disk disk.old) → Self.whole self.old (seen (D.disk disk.old)) → Self.whole self.new (seen (D.disk disk.old)) }
        ensures found { Tells (D.disk disk.old) → Self.whole self.old (seen (D.disk disk.old)) → OnOk result (left (Self.cursor self.new) (seen (D.disk disk.old)) ≡ from_key (Self.cursor self.old).direction key.now ((Self.cursor self.old).versions (seen (D.disk disk.old)))) }
        ensures sought { OnOk result (IsTrue ((Self.cursor self.new).sought key.now)) }
        ensures steady { Tells (D.disk disk.old) → Self.whole self.old (seen (D.disk disk.old)) → OnOk result (Self.steady self.new (seen (D.disk disk.old))) }
        ensures spent { Tells (D.disk disk.old) → Self.whole self.old (seen (D.disk disk.old)) → IsTrue ((Self.cursor self.old).distinct (seen (D.disk disk.old))) → OnErr result (Reads ((Self.cursor self.old).reads_to (seen (D.disk disk.old)) key.now None) ((Self.cursor self.old).asked_to (seen (D.disk disk.old)) key.now None) (D.disk disk.old) (D.disk disk.new)) }
        ensures anew { Tells (D.disk disk.old) → Self.whole self.old (seen (D.disk disk.old)) → IsTrue ((Self.cursor self.old).distinct (seen (D.disk disk.old))) → IsTrue (Self.cursor self.old).anew → OnErr result (IsWithinEnd (Self.cursor self.new) (seen (D.disk disk.old)) key.now) };

    /// Goes one version on. Takes memory.
    fn next(&mut self, disk: &mut D) -> Result<(), Stop>
        requires { IsSome (Self.cursor self.old).current }
        ensures list { SameList (Self.cursor self.old) (Self.cursor self.new) }
        ensures counts { CountsStep (Self.cursor self.old) (Self.cursor self.new) (D.disk disk.old) (D.disk disk.new) }
        ensures same { Tells (D.disk disk.old) → Same (D.disk disk.old) (D.disk disk.new) }
        ensures stops { IfErr result (MayStop (Self.offends self.old) (D.disk disk.old) (D.disk disk.new)) }
        ensures at_end { OnErr result ((Self.cursor self.new).current ≡ None) }
        ensures steps { OnOk result ((Self.cursor self.new).steps < (Self.cursor self.old).steps) }
        ensures offends { (image : Image) (file at : ℕ) → Self.offends self.new image file at → Self.offends self.old image file at }
        ensures whole { Tells (D.disk disk.old) → Self.whole self.old (seen (D.disk disk.old)) → Self.whole self.new (seen (D.disk disk.old)) }
        ensures moved { Tells (D.disk disk.old) → Self.whole self.old (seen (D.disk disk.old)) → OnOk result (left (Self.cursor self.new) (seen (D.disk disk.old)) ≡ (Self.cursor self.old).rest (seen (D.disk disk.old))) }
        ensures sought { (k : List ℕ) → IsTrue ((Self.cursor self.old).sought k) → OnOk result (IsTrue ((Self.cursor self.new).sought k)) }
        ensures steady { Tells (D.disk disk.old) → Self.whole self.old (seen (D.disk disk.old)) → Self.steady self.old (seen (D.disk disk.old)) → OnOk result (Self.steady self.new (seen (D.disk disk.old))) }
        ensures spent { (k : List ℕ) → Tells (D.disk disk.old) → Self.whole self.old (seen (D.disk disk.old)) → Self.steady self.old (seen (D.disk disk.old)) → IsTrue ((Self.cursor self.old).distinct (seen (D.disk disk.old))) → IsTrue ((Self.cursor self.old).sought k) → OnErr result (IsWithinEnd (Self.cursor self.new) (seen (D.disk disk.old)) k) };
}
