// The key expansion: FIPS 197, 5.2, a round key at a time.
ghost use Rattle.std.specs.Prelude.{◌≡◌, ◌++◌, ◌≤◌, length, drop};
ghost use Rattle.cipher.specs.Field.{xtime};
ghost use Rattle.cipher.specs.Words.{little_endian};
ghost use Rattle.cipher.specs.KeyExpansion.{rot_word, sub_word, next_round_key, key_expansion};
ghost use Rattle.cipher.specs.State.{state};

use crate::columns::{BLOCK, Columns, from_block, to_block};
use crate::rounds::ROUNDS;
use crate::tables;
use crate::words::from_le_bytes;

// b times x in the field.
fn times_x(b: u8) -> u8
    ensures { result ≡ xtime b }
{
    ((b >> 7) * 0x1b) ^ (b << 1)
}

// RotWord, then SubWord: the S-box bytes of byte 1, 2, 3 and 0.
fn sub_rot_word(x: u32) -> u32
    ensures { little_endian result ≡ sub_word (rot_word (little_endian x)) }
{
    let sbox = tables::of_s_box();
    let [a, b, c, d] = x.to_le_bytes();
    from_le_bytes(
        sbox[b as usize],
        sbox[c as usize],
        sbox[d as usize],
        sbox[a as usize],
    )
}

// The round key after k, where constant is the first byte of its round constant. Each word is the sum of the word four
// places before it and the word just before it; for the first word the latter goes through RotWord and SubWord, and the
// round constant is added.
fn next_round_key(k: Columns, constant: u8) -> Columns
    ensures { state result ≡ next_round_key constant (state k) }
{
    let t = sub_rot_word(k.c3) ^ (constant as u32);
    let c0 = k.c0 ^ t;
    let c1 = k.c1 ^ c0;
    let c2 = k.c2 ^ c1;
    let c3 = k.c3 ^ c2;
    Columns { c0, c1, c2, c3 }
}

// Puts a block at the front of q.
fn put_block(q: &mut [u8], block: [u8; 16])
    requires { 16 ≤ length q.old }
    ensures { q.new ≡ block ++ drop 16 q.old }
{
    *q.first_chunk_mut().unwrap() = block;
}

// The eleven round keys of a key.
pub(crate) fn expand_key(key: [u8; 16]) -> [u8; 176]
    ensures { result ≡ key_expansion key }
{
    let mut w = [0u8; 176];
    put_block(&mut w, key);
    let mut k = from_block(key);
    let mut constant: u8 = 1;
    for n in 0..ROUNDS {
        k = next_round_key(k, constant);
        constant = times_x(constant);
        let at = BLOCK * (n + 1);
        put_block(&mut w[at..], to_block(k));
    }
    w
}
