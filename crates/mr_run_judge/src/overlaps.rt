//! Runs of a level that overlap, by the bytes of their ends.
ghost use Rattle.std.specs.Prelude.{◌≡◌, []};
ghost use Rattle.mr_run_judge.specs.Meeting.{lie_beside, meet as do_meet, meets_one as does_meet, first_meeting};

use crate::ends::{Ends, is_less};

fn are_beside(a: &Ends, b: &Ends) -> bool
    ensures { result ≡ lie_beside a.now b.now }
{
    is_less(a.highest.as_slice(), b.lowest.as_slice())
        || is_less(b.highest.as_slice(), a.lowest.as_slice())
}

/// Whether two runs are of one family and one level from 1 on, and a key can lie between the ends of both.
fn meet(a: &Ends, b: &Ends) -> bool
    ensures { result ≡ do_meet a.now b.now }
{
    a.run.family == b.run.family
        && a.run.level == b.run.level
        && 0 < a.run.level
        && !are_beside(a, b)
}

fn meets_one(one: &Ends, others: &[Ends]) -> bool
    ensures { result ≡ does_meet one.now others.now }
{
    'meeting: for i in 0..others.len() {
        if meet(one, &others[i]) {
            return true;
        }
    }
    false
}

/// The file of the first run that meets one before it.
pub fn first_overlap(ends: &[Ends]) -> Option<u64>
    ensures { result ≡ first_meeting [] ends.now }
{
    'searching: for i in 0..ends.len() {
        if meets_one(&ends[i], ends.split_at(i).0) {
            return Some(ends[i].run.file);
        }
    }
    None
}
