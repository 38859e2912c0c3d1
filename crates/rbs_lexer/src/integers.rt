//! Whether integers fit 64 bits.

ghost use Rattle.std.specs.Prelude.{◌≤◌, ◌↔◌, IsTrue};
ghost use Rattle.rbs_lexer.specs.Integers.{value_from, Fits64};

/// Whether digits make a number of at most `limit`.
fn is_at_most(limit: u64, digits: &[u8]) -> bool
    requires { 255 ≤ limit }
    ensures { IsTrue result ↔ (value_from 0 digits.now ≤ limit) }
{
    let mut value: u64 = 0;
    for digit in digits {
        let digit = u64::from(digit.saturating_sub(b'0'));
        if value > (limit - digit) / 10 {
            return false;
        }
        value = value * 10 + digit;
    }
    true
}

/// Whether the integer, in digits with a minus sign or without, is from -2^63 to 2^63-1.
pub fn fits(integer: &[u8]) -> bool
    ensures { IsTrue result ↔ Fits64 integer.now }
{
    match integer {
        [] => true,
        [first, digits @ ..] => {
            if *first == b'-' {
                is_at_most(0x8000_0000_0000_0000, digits)
            } else {
                is_at_most(0x7fff_ffff_ffff_ffff, integer)
            }
        }
    }
}
