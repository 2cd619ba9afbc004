//! The greatest number that is a token.

ghost use Rattle.std.specs.Prelude.{◌≡◌, ◌-◌, ◌^◌, true, nat_le};
ghost use Rattle.std.specs.List.{list_all};
ghost use Rattle.mr_lex.specs.Bytes.{is_digit};
ghost use Rattle.mr_lex.specs.Tokens.{number_of};

/// 2^127 - 1
const GREATEST: u128 = 170141183460469231731687303715884105727;
/// So many digits are always below it.
const SAFE_DIGITS: usize = 38;

/// Whether decimal digits have a value up to 2^127 - 1.
pub(crate) fn fits(digits: &[u8]) -> bool
    requires { list_all is_digit digits.now ≡ true }
    ensures { result ≡ nat_le (number_of digits.now) (2 ^ 127 - 1) }
{
    if digits.len() <= SAFE_DIGITS {
        return true;
    }
    let mut value: u128 = 0;
    for digit in digits {
        let next = (*digit - b'0') as u128;
        if value > (GREATEST - next) / 10 {
            return false;
        }
        value = value * 10 + next;
    }
    true
}
