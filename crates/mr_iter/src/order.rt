//! How keys follow one another in a family.
ghost use Rattle.std.specs.Prelude.{◌≡◌};
ghost use Rattle.std.specs.Cmp.Lexicographic.{slice_cmp};
ghost use Rattle.std.specs.Ordering.{nat_cmp};
ghost use Rattle.mr_iter.specs.Versions.{key_cmp};

use mr_base::Direction;
use mr_lanes::first_difference;
use std::cmp::Ordering;

/// As words in a dictionary.
fn compare(a: &[u8], b: &[u8]) -> Ordering
    ensures { result ≡ slice_cmp nat_cmp a.now b.now }
{
    let at = first_difference(a, b);
    if at < a.len() && at < b.len() {
        return a[at].cmp(&b[at]);
    }
    a.len().cmp(&b.len())
}

/// How two keys follow one another in a direction.
pub fn compare_keys(direction: Direction, a: &[u8], b: &[u8]) -> Ordering
    ensures { result ≡ key_cmp direction a.now b.now }
{
    match direction {
        Direction::Forward => compare(a, b),
        Direction::Reverse => compare(b, a),
    }
}
