//! Where a key stands among the runs of a level.
ghost use Rattle.std.specs.Prelude.{◌≡◌, ◌<◌, ◌≤◌, length, get_or};
ghost use Rattle.std.specs.List.{prefix_len};
ghost use Rattle.mr_iter.specs.Versions.{IsInOrder};
ghost use Rattle.mr_levels.specs.Levels.{by_last_key, no_run};
ghost use Rattle.mr_levels.specs.Looks.{ends_before as comes_before, part_of as part_with};

use mr_base::Direction;
use mr_iter::compare_keys;
use mr_run_open::Run;

fn ends_before(direction: Direction, runs: &[Run], i: usize, key: &[u8]) -> bool
    requires { i < length runs.now }
    ensures { result ≡ comes_before direction key.now (get_or runs.now i no_run) }
{
    compare_keys(direction, runs[i].last_key(), key).is_lt()
}

/// How many runs of a level end before a key.
pub fn count_before(direction: Direction, runs: &[Run], key: &[u8]) -> usize
    requires { IsInOrder (by_last_key direction) runs.now }
    ensures within { result ≤ length runs.now }
    ensures count { result ≡ prefix_len (comes_before direction key.now) runs.now }
{
    let mut low = 0;
    let mut high = runs.len();
    'halving: while low < high {
        let middle = low + (high - low) / 2;
        if ends_before(direction, runs, middle, key) {
            low = middle + 1;
        } else {
            high = middle;
        }
    }
    low
}

/// The one run of a level in which a key can stand, or none: the first that doesn't end before the key.
pub fn part_of<'a>(direction: Direction, runs: &'a [Run], key: &[u8]) -> &'a [Run]
    requires { IsInOrder (by_last_key direction) runs.now }
    ensures { result.now ≡ part_with direction key.now runs.now }
{
    let from = count_before(direction, runs, key);
    let rest = &runs[from..];
    &rest[..rest.len().min(1)]
}
