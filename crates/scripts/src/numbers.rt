ghost use Rattle.std.specs.Prelude.{◌≡◌};
ghost use Rattle.scripts.specs.Numbers.{capped, digit_of, value};

use space::LIMIT;

/// The value of a decimal digit; none for any other byte.
fn digit(byte: u8) -> Option<u8>
    ensures { result ≡ digit_of byte }
{
    byte.is_ascii_digit().then(|| byte - b'0')
}

/// The number that a text of decimal digits writes, at most as many as commits can be; none for any other text.
pub fn read_number(text: &[u8]) -> Option<u64>
    ensures { result ≡ capped 1000000000000 (value text.now) }
{
    let mut number: u64 = 0;
    // a loop, since a closure of `try_fold` would have to carry the bound of the number
    for byte in text {
        number = (number * 10 + u64::from(digit(*byte)?)).min(LIMIT);
    }
    (!text.is_empty()).then_some(number)
}

/// The same number as a byte: above 255 it counts as 255.
pub(crate) fn read_byte(text: &[u8]) -> Option<u8>
    ensures { result ≡ capped 255 (value text.now) }
{
    read_number(text).map(|number| u8::try_from(number).unwrap_or(u8::MAX))
}
