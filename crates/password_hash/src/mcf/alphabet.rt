//! The 64 letters of crypt(5). Each encodes six bits.
ghost use Rattle.std.specs.Prelude.{◌≡◌, ◌<◌, ◌≤◌, length};
ghost use Rattle.password_hash.specs.Crypt64.{letter, letter_value, number_of};

/// Returns the letter of a value below 64.
///
/// The value may be a part of a key, so there is no table, whose address would depend on it: the
/// two quotients are 1 from `A` and from `a` on.
#[tactic(auto, using(crate::proofs::Crypt64Facts::letter_of_value))]
pub fn letter(value: u32) -> u8
    requires small { value < 64 }
    ensures value { result ≡ letter value }
{
    (value + 46 + 7 * ((value + 116) / 128) + 6 * ((value + 90) / 128)) as u8
}

/// Returns the value of a letter, from 0 to 63, or `None` if the byte is not a letter of crypt(5).
#[tactic(auto, using(crate::proofs::Crypt64Facts::byte_values))]
pub fn value(byte: u8) -> Option<u8>
    ensures value { result ≡ letter_value byte }
{
    match byte {
        b'.'..=b'9' => Some(byte - b'.'),
        b'A'..=b'Z' => Some(byte - b'A' + 12),
        b'a'..=b'z' => Some(byte - b'a' + 38),
        _ => None,
    }
}

/// Returns the number that at most five letters encode in base 64, the least significant digit
/// first, or `None` if a byte is not a letter of crypt(5).
#[tactic(auto, using(crate::proofs::Crypt64Facts::numbers), unfolding(crate::specs::Crypt64::number_of))]
pub fn number(letters: &[u8]) -> Option<u32>
    requires short { length letters.now ≤ 5 }
    ensures value { result ≡ number_of letters.now }
{
    let Some((first, rest)) = letters.split_first() else {
        return Some(0);
    };
    let digit = value(*first)?;
    let above = number(rest)?;
    Some(u32::from(digit) + 64 * above)
}
