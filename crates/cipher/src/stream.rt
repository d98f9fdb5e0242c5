// The counter mode: SP 800-38A, 6.5, from counter 0.
ghost use Rattle.std.specs.Prelude.{◌≡◌, ◌++◌, ◌+◌, ◌<◌, ◌^◌, take, drop};
ghost use Rattle.cipher.specs.Words.{xor_bytes};
ghost use Rattle.cipher.specs.Cipher.{cipher};
ghost use Rattle.cipher.specs.State.{state};
ghost use Rattle.cipher.specs.CounterMode.{counter_block, counter_mode};
ghost use Rattle.cipher.specs.Caching.{Serves};

use crate::caching::{Cache, new_cache, next_cache, two_rounds};
use crate::columns::{BLOCK, Columns, to_block};
use crate::rounds::{States, finish_both};

// The encipherments of the counters n and n + 1, which one cache serves.
fn output_blocks(w: &[u8; 176], cache: Cache, n: u64) -> States
    requires { (n + 1 < 2 ^ 64) × Serves w.now n cache × Serves w.now (n + 1) cache }
    ensures { (state result.first ≡ cipher w.now (counter_block n))
        × (state result.second ≡ cipher w.now (counter_block (n + 1))) }
{
    let first = two_rounds(w, cache, n);
    let second = two_rounds(w, cache, n + 1);
    finish_both(w, States { first, second }, 2)
}

// Adds to q as much of a block as q is long.
fn add_block(q: &mut [u8], block: [u8; 16])
    ensures { q.new ≡ xor_bytes q.old block }
{
    let n = q.len().min(BLOCK);
    for (j, x) in q[..n].iter_mut().enumerate() {
        *x ^= block[j];
    }
}

// Adds a state to text from at on, as much of it as there is text.
fn add_state(text: &mut [u8], at: usize, s: Columns)
    ensures { text.new ≡ take at text.old ++ xor_bytes (drop at text.old) (state s) }
{
    if text.len() <= at {
        return;
    }
    add_block(&mut text[at..], to_block(s));
}

// Adds the key stream to text, two blocks at a time.
pub(crate) fn add_key_stream(w: &[u8; 176], text: &mut [u8])
    ensures { text.new ≡ counter_mode w.now text.old }
{
    let mut cache = new_cache(w, 0);
    for at in (0..text.len()).step_by(2 * BLOCK) {
        let n = (at / BLOCK) as u64;
        let output = output_blocks(w, cache, n);
        add_state(text, at, output.first);
        add_state(text, at + BLOCK, output.second);
        cache = next_cache(w, cache, n + 1);
    }
}
