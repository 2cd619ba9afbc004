//! A seek of many cursors.
ghost use Rattle.std.specs.Prelude.{◌≡◌, ◌<◌, ◌≤◌, ◌+◌, ℕ, OnOk, OnErr, IfErr, length, map, IsTrue, None};
ghost use Rattle.std.specs.List.{AllByRecursion};
ghost use Rattle.mr_base.specs.Disk.{Tells, Image, seen};
ghost use Rattle.mr_base.specs.Calls.{Same, Counts, Reads};
ghost use Rattle.mr_iter.specs.Cursors.{CursorState, MayStop};
ghost use Rattle.mr_iter.specs.Children.{Zipped, AnyOf, total, KeepsChild, FoundChild};

use crate::cursor::Cursor;
use mr_base::{Disk, Stop};

pub fn seek_all<D: Disk, C: Cursor<D>>(
    disk: &mut D,
    children: &mut Vec<C>,
    key: &[u8],
) -> Result<(), Stop>
    ensures keeps { Zipped (KeepsChild C.cursor C.whole (seen (D.disk disk.old)) (Tells (D.disk disk.old))) children.old.items children.new.items }
    ensures found { OnOk result (Zipped (FoundChild C.cursor C.whole C.steady (seen (D.disk disk.old)) (Tells (D.disk disk.old)) key.now) children.old.items children.new.items) }
    ensures counts { Counts (total (λ c. (C.cursor c).reads) children.new.items) (total (λ c. (C.cursor c).asked) children.new.items) 0 (D.disk disk.old) (D.disk disk.new) }
    ensures same { Tells (D.disk disk.old) → Same (D.disk disk.old) (D.disk disk.new) }
    ensures stops { IfErr result (MayStop (λ image file at. AnyOf (λ c. C.offends c image file at) children.old.items) (D.disk disk.old) (D.disk disk.new)) }
    ensures offends { (image : Image) (file at : ℕ) → AnyOf (λ c. C.offends c image file at) children.new.items → AnyOf (λ c. C.offends c image file at) children.old.items }
    ensures spent { Tells (D.disk disk.old) → AllByRecursion (λ c. C.whole c (seen (D.disk disk.old))) children.old.items → AllByRecursion (λ c. IsTrue ((C.cursor c).distinct (seen (D.disk disk.old)))) children.old.items → Reads (total (λ c. (C.cursor c).reads_to (seen (D.disk disk.old)) key.now None) children.old.items) (total (λ c. (C.cursor c).asked_to (seen (D.disk disk.old)) key.now None) children.old.items) (D.disk disk.old) (D.disk disk.new) }
{
    for place in 0..children.len() {
        match children[place].seek(disk, key) {
            Ok(()) => {}
            Err(stop) => return Err(stop),
        }
    }
    Ok(())
}
