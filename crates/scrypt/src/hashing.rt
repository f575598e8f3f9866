// Hashing, in every format and in any memory.

ghost use Rattle.std.specs.Prelude.{◌≡◌, length};
ghost use Rattle.scrypt.specs.Terms.{AreCompressed, AreCounted, IsReady, IsSpent, cost_by, hash_cost, key_by};
ghost use Rattle.scrypt.specs.Terms.{key_len_or_default};

use crate::buffers::memory::ActiveBuffers;
use crate::derivation::derive_in;
use crate::{Backend, Params};
use password_hash::phc::Output;
use scrypt_kernel::memory::TableMemory;

/// Derives the key that hashing with these parameters stores. Afterwards the chunks and the scratch
/// are zeros.
pub(crate) fn stored_key<M: TableMemory, W: Backend>(
    password: &[u8],
    salt: &[u8],
    params: &Params,
    used: &mut ActiveBuffers<'_, M>,
) -> Output
    requires ready { IsReady M.room params.now.log_n 0 params.now.r params.now.p used.old }
    ensures value { result ≡ key_by params.now password.now salt.now (key_len_or_default params.now) }
    ensures spent { IsSpent M.room used.old used.new }
    ensures counted { AreCounted (cost_by params.now) used.old.cores.now used.new.cores.now }
    ensures hashed { AreCompressed (hash_cost (length password.now) (length salt.now)
        params.now.r params.now.p (key_len_or_default params.now)) used.old.cores.now used.new.cores.now }
{
    let mut places = [0u8; Output::MAX_LENGTH];
    let key = &mut places[..params.key_len_or_default()];
    derive_in::<M, W>(password, salt, params, 0, used, key);
    let Ok(key) = Output::new(key) else {
        unreachable!();
    };
    key
}
