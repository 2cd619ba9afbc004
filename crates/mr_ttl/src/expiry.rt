//! When an entry is expired.
ghost use Rattle.std.specs.Prelude.{◌≡◌};
ghost use Rattle.mr_types.specs.Expiry.{is_expired};

/// Whether an entry with this stamp is expired at the moment: its stamp and the duration, counted without bound, are not past it.
/// All three are seconds. Takes no memory.
pub fn expired(stamp: u64, duration: u64, moment: u64) -> bool
    ensures { result ≡ is_expired stamp duration moment }
{
    mr_types::is_expired(stamp, duration, moment)
}
