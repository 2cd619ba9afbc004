//! What a claim's entry says of it.
ghost use Rattle.std.specs.Prelude.{◌≡◌};
ghost use Rattle.mr_claims.specs.Kept.{judged, changed_since as is_changed_since};

use crate::claimed::Claimed;
use crate::entry::Entry;

/// Whether the last commit that has a claim is behind a snapshot.
fn changed_since(since: u64, changed: Option<u64>) -> Claimed
    ensures { result ≡ is_changed_since since changed }
{
    match changed {
        Some(k) => {
            if k > since {
                Claimed::Changed(k)
            } else {
                Claimed::Free
            }
        }
        None => Claimed::Free,
    }
}

/// What a claim is to a session with this snapshot, by its entry.
pub fn judge(entry: Option<Entry>, session: u8, since: u64) -> Claimed
    ensures { result ≡ judged entry session since }
{
    match entry {
        Some(entry) => {
            if entry.count > 0 && entry.session != session {
                Claimed::Held(entry.session)
            } else {
                changed_since(since, entry.changed)
            }
        }
        None => Claimed::Free,
    }
}
