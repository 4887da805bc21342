// Integers, over their digits.
ghost use Rattle.std.specs.Prelude.{◌≡◌, min};
ghost use Rattle.enc_lex.specs.Values.{value_of};

/// The greatest integer of the language.
pub(crate) const MAX_INT: u64 = i64::MAX as u64;

/// The number that digits write, or the greatest `u64` where that is less.
pub(crate) fn number(digits: &[u8]) -> u64
    ensures { result ≡ min (value_of digits.now) 18446744073709551615 }
{
    let mut value: u64 = 0;
    for &digit in digits {
        let digit = digit.saturating_sub(b'0');
        value = value.saturating_mul(10).saturating_add(digit as u64);
    }
    value
}
