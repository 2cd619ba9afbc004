//! The order of keys.

ghost use Rattle.std.specs.Prelude.{◌≡◌};
ghost use Rattle.mr_pieces.specs.Order.{bytes_cmp};

use mr_lanes::first_difference;
use std::cmp::Ordering;

/// Compares keys as words in a dictionary.
pub fn compare_keys(a: &[u8], b: &[u8]) -> Ordering
    ensures { result ≡ bytes_cmp a.now b.now }
{
    let at = first_difference(a, b);
    if at < a.len() && at < b.len() {
        return a[at].cmp(&b[at]);
    }
    a.len().cmp(&b.len())
}
