//! When a row has expired.

ghost use Rattle.std.specs.Prelude.{◌≡◌};
ghost use Rattle.mr_types.specs.Expiry.{is_expired};

/// Whether a row with this stamp has expired at the moment: its stamp and the duration, counted
/// without bound, are not past it. All three are seconds.
pub fn is_expired(stamp: u64, duration: u64, moment: u64) -> bool
    ensures { result ≡ is_expired stamp duration moment }
{
    stamp <= moment && duration <= moment - stamp
}
