// Numbers below 2^30 as five letters of crypt(5), the lowest digit in base 64 first.

ghost use Rattle.std.specs.Prelude.{◌≡◌, ◌↔◌, ◌≤◌, ◌%◌, ◌^◌, ◌++◌, None, Some, length, drop, IsOk, IfOk, IfErr, OnErr, OnOk};
ghost use Rattle.scrypt.specs.Terms.{five_letter_number, letters_of};
ghost use Rattle.password_hash.specs.declared.error.Error.TheVariants.{EncodingInvalid};

use password_hash::mcf::alphabet::{letter, number};
use password_hash::{Error, Result};

/// Returns the number, below 2^30, that the first five bytes of `letters` encode. Bytes after them
/// are ignored.
///
/// Returns `EncodingInvalid` exactly if there are fewer than five bytes, or one of the five is not
/// a letter of crypt(5).
pub fn decode64_uint32(letters: &[u8]) -> Result<u32>
    ensures ok { IfOk result (λ n. five_letter_number letters.now ≡ Some n) }
    ensures none { OnErr result (five_letter_number letters.now ≡ None) }
    ensures err { IfErr result (λ e. e ≡ EncodingInvalid) }
{
    let Some(five) = letters.get(..5) else {
        return Err(Error::EncodingInvalid);
    };
    number(five).ok_or(Error::EncodingInvalid)
}

/// Writes the five letters of `number` modulo 2^30 to the first five bytes of `out`. The bytes
/// after them are unchanged.
///
/// Returns `EncodingInvalid` exactly if `out` has fewer than five bytes, and leaves it unchanged.
#[tactic(auto, using(crate::proofs::McfParamsFacts::five_letter_number_letters_of))]
pub fn encode64_uint32(out: &mut [u8], number: u32) -> Result<()>
    ensures exact { IsOk result ↔ (5 ≤ length out.old) }
    ensures written { OnOk result (out.new ≡ letters_of 5 number ++ drop 5 out.old) }
    ensures read_back { OnOk result (five_letter_number out.new ≡ Some (number % 2 ^ 30)) }
    ensures err { IfErr result (λ e. e ≡ EncodingInvalid) }
    ensures unchanged { OnErr result (out.new ≡ out.old) }
{
    if out.len() < 5 {
        return Err(Error::EncodingInvalid);
    }
    out[..5].copy_from_slice(&five_letters(number));
    Ok(())
}

/// Returns the five letters of a number modulo 2^30.
#[tactic(auto, unfolding(password_hash::specs::Crypt64::letters_of))]
pub(super) fn five_letters(number: u32) -> [u8; 5]
    ensures { result ≡ letters_of 5 number }
{
    [
        letter(number % 64),
        letter(number / 64 % 64),
        letter(number / 64 / 64 % 64),
        letter(number / 64 / 64 / 64 % 64),
        letter(number / 64 / 64 / 64 / 64 % 64),
    ]
}
