//! Numbers in decimal digits, without a plus sign, and without a leading zero except in `0` itself.
ghost use Rattle.std.specs.Prelude.{◌≡◌, ◌^◌};
ghost use Rattle.password_hash.specs.Decimal.{DecimalGives, decimal_below, has_plus_or_leading_zero};

use std::str::FromStr;

/// Parses a number below 2^8. Returns `None` if `text` is not one.
pub fn read_u8(text: &str) -> Option<u8>
    ensures value { result ≡ decimal_below (2 ^ 8) text.now }
{
    read_decimal(text)
}

/// Parses a number below 2^32. Returns `None` if `text` is not one.
pub fn read_u32(text: &str) -> Option<u32>
    ensures value { result ≡ decimal_below (2 ^ 32) text.now }
{
    read_decimal(text)
}

/// Parses a number below 2^64. Returns `None` if `text` is not one.
pub fn read_usize(text: &str) -> Option<usize>
    ensures value { result ≡ decimal_below (2 ^ 64) text.now }
{
    read_decimal(text)
}

// Parses a number as `N` does. `parse` accepts a plus and leading zeros.
fn read_decimal<N: FromStr>(text: &str) -> Option<N>
where
    N::Err: Drop,
    ensures gives { DecimalGives N.from_str_gives text.now result }
{
    if has_plus_or_leading_zero(text.as_bytes()) {
        return None;
    }
    text.parse().ok()
}

// Returns whether `text` begins with a plus, or with a zero that is not its only digit.
#[tactic(auto, unfolding(crate::specs::Decimal::has_plus_or_leading_zero))]
fn has_plus_or_leading_zero(text: &[u8]) -> bool
    ensures { result ≡ has_plus_or_leading_zero text.now }
{
    matches!(text, [b'+', ..] | [b'0', _, ..])
}
