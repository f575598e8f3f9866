// scryptROMix with each order of words, for small sizes. The initial contents of the buffers do not
// matter.

use crate::holds;
use scrypt::CoreCount;
use scrypt::romix::{plain_ro_mix, scrypt_ro_mix};
use std::alloc::Global;
use std::test::Fail;

// The bytes with the first 128 * r of them mixed, with r from 1 to 4 and log_n up to 6: in the
// standard's order of words if `is_plain`, otherwise in diagonal order. The buffers hold `word`.
fn mixed_by(
    alloc: Global,
    is_plain: bool,
    bytes: &[u8; 512],
    (log_n, r, word): (u8, usize, u32),
) -> Result<[u8; 512], Fail> {
    let (log_n, r, mut cores) = (log_n.min(6), r.clamp(1, 4), CoreCount::new());
    let (len, words, mut b, mut t) = (128 * r, 64 * r, *bytes, [word; 256]);
    let mut v = vec![in alloc; word; (1usize << log_n) * (32 * r)]?;
    if is_plain {
        plain_ro_mix(&mut b[..len], &mut v, &mut t[..words], log_n, &mut cores);
    } else {
        scrypt_ro_mix(&mut b[..len], &mut v, &mut t[..words], log_n, &mut cores);
    }
    Ok(b)
}

// The bytes mixed in both orders, which must give the same.
fn mixed(alloc: Global, bytes: &[u8; 512], size: (u8, usize, u32)) -> Result<[u8; 512], Fail> {
    let plain = mixed_by(alloc, true, bytes, size)?;
    holds(plain == mixed_by(alloc, false, bytes, size)?, "both orders")?;
    Ok(plain)
}

#[test]
fn both_orders(rt: HostRuntime) -> Result<(), Fail> {
    let mut bytes = [0; 512];
    for i in 0..512 {
        bytes[i] = (i % 251) as u8;
    }
    for log_n in 0..7 {
        for r in 1..5 {
            for &word in &[0, u32::MAX] {
                mixed(rt.alloc(), &bytes, (log_n, r, word))?;
            }
        }
    }
    Ok(())
}

#[test]
fn zeros_stay_zeros(rt: HostRuntime) -> Result<(), Fail> {
    for &(log_n, reason) in &[(0, "one row"), (4, "sixteen rows")] {
        let output = mixed(rt.alloc(), &[0; 512], (log_n, 1, u32::MAX))?;
        holds(output == [0; 512], reason)?;
    }
    Ok(())
}
