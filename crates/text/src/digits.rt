// Hexadecimal digits read back: the value of a digit in either case, and two values as a byte.
ghost use Rattle.std.specs.Prelude.{◌≡◌, ◌+◌, ◌*◌, ◌%◌};
ghost use Rattle.text.specs.Digits.{value_of};

#[tactic(auto, unfolding(crate::specs::Digits::value_of))]
pub fn value_of(byte: u8) -> Option<u8>
    ensures { result ≡ value_of byte }
{
    match byte {
        b'0'..=b'9' => Some(byte - b'0'),
        b'A'..=b'F' => Some(byte - b'A' + 10),
        b'a'..=b'f' => Some(byte - b'a' + 10),
        _ => None,
    }
}

// Two digits as a byte. Below 16, as digits are, the remainders change nothing.
pub fn joined(high: u8, low: u8) -> u8
    ensures { result ≡ high % 16 * 16 + low % 16 }
{
    high % 16 * 16 + low % 16
}
