//! The Salsa20/8 core (RFC 7914, section 3) on words in standard order.

ghost use Rattle.std.specs.Prelude.{◌≡◌, ◌<◌, false};
ghost use Rattle.scrypt_kernel.specs.{AreCountedAs, double_round, quarter_round_at, salsa20_8};

use crate::cores::CoreCount;
use crate::words::add_words;

/// Replaces the 16 words by their Salsa20/8 core, and counts it (RFC 7914, section 3).
#[inline(always)]
#[tactic(auto, unfolding(crate::specs::Salsa::salsa20_8))]
pub fn core(x: &mut [u32; 16], cores: &mut CoreCount)
    ensures value { x.new ≡ salsa20_8 x.old }
    ensures counted { AreCountedAs false 1 cores.old cores.new }
{
    let from = *x;
    let mut turned = from;
    double_round(&mut turned);
    double_round(&mut turned);
    double_round(&mut turned);
    double_round(&mut turned);
    add_words(x, &turned);
    *cores = CoreCount::after_core(cores, &from, x);
}

#[inline(always)]
#[tactic(auto, unfolding(crate::specs::Salsa::double_round))]
fn double_round(x: &mut [u32; 16])
    ensures { x.new ≡ double_round x.old }
{
    // the columns
    quarter_round(x, 0, 4, 8, 12);
    quarter_round(x, 5, 9, 13, 1);
    quarter_round(x, 10, 14, 2, 6);
    quarter_round(x, 15, 3, 7, 11);
    // the rows
    quarter_round(x, 0, 1, 2, 3);
    quarter_round(x, 5, 6, 7, 4);
    quarter_round(x, 10, 11, 8, 9);
    quarter_round(x, 15, 12, 13, 14);
}

#[inline(always)]
#[tactic(auto, unfolding(crate::specs::Salsa::quarter_round))]
fn quarter_round(x: &mut [u32; 16], a: usize, b: usize, c: usize, d: usize)
    requires places { (a < 16) × (b < 16) × (c < 16) × (d < 16) }
    ensures { x.new ≡ quarter_round_at a b c d x.old }
{
    let (xa, xb, xc, xd) = (x[a], x[b], x[c], x[d]);
    let xb = xb ^ xa.wrapping_add(xd).rotate_left(7);
    let xc = xc ^ xb.wrapping_add(xa).rotate_left(9);
    let xd = xd ^ xc.wrapping_add(xb).rotate_left(13);
    let xa = xa ^ xd.wrapping_add(xc).rotate_left(18);
    x[b] = xb;
    x[c] = xc;
    x[d] = xd;
    x[a] = xa;
}
