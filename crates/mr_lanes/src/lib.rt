//! Byte kernels: the few loops over plain bytes on which orders, keys and texts stand.
//!
//! Each call says its whole meaning in one sentence, for every length, so that a body that works
//! on many bytes at a time changes nothing above. None takes memory.
#![tactic(auto)]

ghost use Rattle.std.specs.Prelude.{◌≡◌, map, nat_eq};
ghost use Rattle.std.specs.List.{common_prefix_len, suffix_len, list_all};
ghost use Rattle.mr_lanes.specs.Kernels.{upper, is_space, is_low};

/// The least place where the two differ, or the shorter one's length.
pub fn first_difference(a: &[u8], b: &[u8]) -> usize
    ensures { result ≡ common_prefix_len nat_eq a.now b.now }
{
    let mut at = 0;
    while at < a.len() && at < b.len() && a[at] == b[at] {
        at += 1;
    }
    at
}

/// The number of spaces at the end.
pub fn trailing_spaces(a: &[u8]) -> usize
    ensures { result ≡ suffix_len is_space a.now }
{
    let mut end = a.len();
    while end > 0 && a[end - 1] == b' ' {
        end -= 1;
    }
    a.len() - end
}

/// A to Z for a to z, any other byte as it is.
pub fn upper_of(b: u8) -> u8
    ensures { result ≡ upper b }
{
    if b >= b'a' && b <= b'z' { b - 32 } else { b }
}

/// Maps a to z onto A to Z, in place.
pub fn fold_upper(a: &mut [u8])
    ensures { a.new ≡ map upper a.old }
{
    for b in a.iter_mut() {
        *b = upper_of(*b);
    }
}

/// Whether all bytes are below 0x80.
pub fn is_ascii(a: &[u8]) -> bool
    ensures { result ≡ list_all is_low a.now }
{
    a.iter().all(|b| *b < 0x80)
}

#[cfg(test)]
mod tests {
    use super::*;
    use std::test::Fail;

    #[test]
    fn kernels_on_short_inputs(rt: HostRuntime) -> Result<(), Fail> {
        assert_eq!(rt; first_difference(b"abc", b"abd"), 2);
        assert_eq!(rt; first_difference(b"abc", b"ab"), 2);
        assert_eq!(rt; first_difference(b"", b"x"), 0);
        assert_eq!(rt; trailing_spaces(b" a  "), 2);
        assert_eq!(rt; trailing_spaces(b"   "), 3);
        assert!(rt; is_ascii(b"\x00~\x7f"));
        assert!(rt; !is_ascii(b"a\x80"));
        let mut text = b"`az{AZ\xe9".to_vec(rt.alloc())?;
        fold_upper(&mut text);
        assert_eq!(rt; text.as_slice(), b"`AZ{AZ\xe9".as_slice());
        Ok(())
    }
}
