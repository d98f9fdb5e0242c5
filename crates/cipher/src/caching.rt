// Counter-mode caching: the first two rounds, of which all but five look-ups are worked out once for 256 counters.
ghost use Rattle.std.specs.Prelude.{◌≡◌, ◌+◌, ◌<◌, ◌^◌};
ghost use Rattle.cipher.specs.Words.{xor_bytes, little_endian};
ghost use Rattle.cipher.specs.Cipher.{add_round_key};
ghost use Rattle.cipher.specs.State.{state};
ghost use Rattle.cipher.specs.CounterMode.{counter_block};
ghost use Rattle.cipher.specs.Caching.{column_share, counter_state, Serves};

use crate::columns::{Columns, add};
use crate::rounds::{full_round, mix_row, round_key};
use crate::words::from_le_bytes;

// What counters that differ in the last byte alone have in common.
#[derive(Clone, Copy)]
pub(crate) struct Cache {
    // Column 0 after round 1, without the share of byte 15.
    pub(crate) column: u32,
    // The state after round 2, without the share of column 0.
    pub(crate) rest: Columns,
}

// The counter n as a block: 16 bytes, the highest first.
fn counter_block(n: u64) -> Columns
    ensures { state result ≡ counter_block n }
{
    let [a, b, c, d, e, f, g, h] = n.to_be_bytes();
    let c2 = from_le_bytes(a, b, c, d);
    let c3 = from_le_bytes(e, f, g, h);
    Columns {
        c0: 0,
        c1: 0,
        c2,
        c3,
    }
}

// The counter n as a block plus the key of round 0.
fn counter_state(w: &[u8; 176], n: u64) -> Columns
    ensures { state result ≡ add_round_key w.now 0 (counter_block n) }
{
    add(counter_block(n), round_key(w, 0))
}

// A state after round 2 plus the share of column 0, x: it brings the share in, or takes it out again.
fn add_column_share(s: Columns, x: u32) -> Columns
    ensures { state result ≡ xor_bytes (state s) (column_share (little_endian x)) }
{
    let c0 = s.c0 ^ mix_row::<0>(x);
    let c1 = s.c1 ^ mix_row::<3>(x);
    let c2 = s.c2 ^ mix_row::<2>(x);
    let c3 = s.c3 ^ mix_row::<1>(x);
    Columns { c0, c1, c2, c3 }
}

// The cache for counter n: two rounds, with the shares taken out.
pub(crate) fn new_cache(w: &[u8; 176], n: u64) -> Cache
    ensures { Serves w.now n result }
{
    let s0 = counter_state(w, n);
    let s1 = full_round(w, s0, 1);
    let s2 = full_round(w, s1, 2);
    let column = s1.c0 ^ mix_row::<3>(s0.c3);
    let rest = add_column_share(s2, s1.c0);
    Cache { column, rest }
}

// The cache for counter n + 1 after that for counter n.
pub(crate) fn next_cache(w: &[u8; 176], cache: Cache, n: u64) -> Cache
    requires n_bound { n + 1 < 2 ^ 64 }
    requires serves { Serves w.now n cache }
    ensures { Serves w.now (n + 1) result }
{
    let next = n + 1;
    if next % 0x100 == 0 {
        return new_cache(w, next);
    }
    cache
}

// The state of counter n after two rounds.
pub(crate) fn two_rounds(w: &[u8; 176], cache: Cache, n: u64) -> Columns
    requires { Serves w.now n cache }
    ensures { state result ≡ counter_state w.now 2 n }
{
    let s = counter_state(w, n);
    let x = cache.column ^ mix_row::<3>(s.c3);
    add_column_share(cache.rest, x)
}
