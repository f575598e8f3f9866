// Comparing a stored key with the derived one (RFC 7914, section 6, step 3), without a copy of
// either.

ghost use Rattle.std.specs.Prelude.{◌≡◌, length};
ghost use Rattle.scrypt.specs.Terms.{AreHashed, is_right, mixed_of, pbkdf2_cost, stored};

use crate::CoreCount;
use crate::stored_parts::StoredParts;
use scrypt_kernel::pbkdf2::Blocks;

/// The length of a piece in bytes: a whole number of PBKDF2 blocks, and of crypt Base64 groups.
const PIECE_LEN: usize = 96;

/// Returns whether the stored key is the key that PBKDF2 derives from `password` with the mixed
/// chunks as salt. Every piece is compared, also after a difference. PBKDF2 hashes the password and
/// the chunks only once, whatever the length of the key. Does not allocate.
pub(crate) fn is_derived_key(
    password: &[u8],
    mixed: &[u8],
    parts: &StoredParts<'_>,
    cores: &mut CoreCount,
) -> bool
    ensures exact { mixed.now ≡ mixed_of password.now (stored parts.now)
        → result ≡ is_right password.now (stored parts.now) }
    ensures counted { AreHashed (pbkdf2_cost
        (length password.now) (length mixed.now) (length (stored parts.now).key)) cores.old cores.new }
{
    let len = parts.key_len;
    parts.expose_key_len();
    let blocks = Blocks::new(password, mixed, cores);
    let mut same = true;
    for i in 0..len.div_ceil(PIECE_LEN) {
        let at = PIECE_LEN * i;
        let size = (len - at).min(PIECE_LEN);
        let mut places = [0u8; PIECE_LEN];
        let piece = &mut places[..size];
        blocks.write(3 * i as u32, piece, cores);
        same &= parts.key.matches_at(at, piece);
    }
    same
}
