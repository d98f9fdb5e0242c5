// The cipher on columns: FIPS 197, 5.1.
ghost use Rattle.std.specs.Prelude.{◌≡◌, List, ℕ, ◌+◌, ◌*◌, ◌<◌, ◌≤◌, length};
ghost use Rattle.base.specs.Part.{part};
ghost use Rattle.cipher.specs.SBox.{s_box};
ghost use Rattle.cipher.specs.Table.{round_table, row};
ghost use Rattle.cipher.specs.Words.{four, word, byte, byte0, byte1, byte2, byte3, little_endian};
ghost use Rattle.cipher.specs.Cipher.{Nb, Nr, sub_bytes, shift_rows, mix_bytes, mix_columns, round_key, add_round_key, rounds, cipher};
ghost use Rattle.cipher.specs.State.{state};

use crate::columns::{Columns, add};
use crate::tables::{self, ENTRY_SIZE};
use crate::words::{from_le_bytes, word_at};

// The rounds. All but the last are alike; the last has no MixColumns.
pub(crate) const ROUNDS: usize = 10;

const FULL_ROUNDS: usize = ROUNDS - 1;

// Two states that are worked on side by side: that takes little longer than one.
#[derive(Clone, Copy)]
pub(crate) struct States {
    pub(crate) first: Columns,
    pub(crate) second: Columns,
}

// SubBytes and MixColumns of one row of x alone, by the round table.
pub(crate) fn mix_row<const ROW: usize>(x: u32) -> u32
    requires { ROW < 4 }
    ensures { little_endian result ≡ row ROW (s_box (byte ROW x)) }
{
    let byte = (x >> (8 * ROW)) % 0x100;
    let at = ENTRY_SIZE * (byte as usize) + (4 - ROW);
    word_at(tables::of_rounds(), at)
}

// SubBytes and MixColumns of row 0 of a, row 1 of b, row 2 of c and row 3 of d.
fn sub_mix(a: u32, b: u32, c: u32, d: u32) -> u32
    ensures { little_endian result ≡ mix_bytes (s_box (byte0 a)) (s_box (byte1 b)) (s_box (byte2 c)) (s_box (byte3 d)) }
{
    mix_row::<0>(a) ^ mix_row::<1>(b) ^ mix_row::<2>(c) ^ mix_row::<3>(d)
}

// SubBytes, ShiftRows and MixColumns: ShiftRows brings the rows of a column from that column and the next three.
fn sub_shift_mix(s: Columns) -> Columns
    ensures { state result ≡ mix_columns (shift_rows (sub_bytes (state s))) }
{
    let c0 = sub_mix(s.c0, s.c1, s.c2, s.c3);
    let c1 = sub_mix(s.c1, s.c2, s.c3, s.c0);
    let c2 = sub_mix(s.c2, s.c3, s.c0, s.c1);
    let c3 = sub_mix(s.c3, s.c0, s.c1, s.c2);
    Columns { c0, c1, c2, c3 }
}

// SubBytes of row 0 of a, row 1 of b, row 2 of c and row 3 of d: byte 1 of an entry is the S-box byte.
fn sub_rows(a: u32, b: u32, c: u32, d: u32) -> u32
    ensures { little_endian result ≡ four (s_box (byte0 a)) (s_box (byte1 b)) (s_box (byte2 c)) (s_box (byte3 d)) }
{
    let table = tables::of_rounds();
    let [a0, _, _, _] = a.to_le_bytes();
    let [_, b1, _, _] = b.to_le_bytes();
    let [_, _, c2, _] = c.to_le_bytes();
    let [_, _, _, d3] = d.to_le_bytes();
    from_le_bytes(
        table[ENTRY_SIZE * (a0 as usize) + 1],
        table[ENTRY_SIZE * (b1 as usize) + 1],
        table[ENTRY_SIZE * (c2 as usize) + 1],
        table[ENTRY_SIZE * (d3 as usize) + 1],
    )
}

// SubBytes and ShiftRows.
// Stays (2): one function over a closure would have to say of each column what the closure gave, which is longer than these
// lines.
fn sub_shift(s: Columns) -> Columns
    ensures { state result ≡ shift_rows (sub_bytes (state s)) }
{
    let c0 = sub_rows(s.c0, s.c1, s.c2, s.c3);
    let c1 = sub_rows(s.c1, s.c2, s.c3, s.c0);
    let c2 = sub_rows(s.c2, s.c3, s.c0, s.c1);
    let c3 = sub_rows(s.c3, s.c0, s.c1, s.c2);
    Columns { c0, c1, c2, c3 }
}

// Word i of the round keys.
fn key_word(w: &[u8; 176], i: usize) -> u32
    requires { i < Nb * (Nr + 1) }
    ensures { little_endian result ≡ word w.now i }
{
    word_at(w, 4 * i)
}

// The key of a round.
pub(crate) fn round_key(w: &[u8; 176], round: usize) -> Columns
    requires { round ≤ Nr }
    ensures { state result ≡ round_key w.now round }
{
    let i = 4 * round;
    let c0 = key_word(w, i);
    let c1 = key_word(w, i + 1);
    let c2 = key_word(w, i + 2);
    let c3 = key_word(w, i + 3);
    Columns { c0, c1, c2, c3 }
}

// A round that is not the last.
pub(crate) fn full_round(w: &[u8; 176], s: Columns, round: usize) -> Columns
    requires { round ≤ Nr }
    ensures { state result ≡ add_round_key w.now round (mix_columns (shift_rows (sub_bytes (state s)))) }
{
    add(sub_shift_mix(s), round_key(w, round))
}

// The last round, which has no MixColumns.
fn last_round(w: &[u8; 176], s: Columns) -> Columns
    ensures { state result ≡ add_round_key w.now Nr (shift_rows (sub_bytes (state s))) }
{
    add(sub_shift(s), round_key(w, ROUNDS))
}

// The encipherments of two blocks whose states after done rounds are start.
// Stays (2): by one function that is called for each state in turn a stream takes a third more time, though a small
// read has a tenth fewer instructions. Over an array of states each round is a loop, whose laws speak of every state of a list.
pub(crate) fn finish_both(w: &[u8; 176], start: States, done: usize) -> States
    requires { done < Nr }
    ensures { ((input : List ℕ) → state start.first ≡ rounds w.now done (add_round_key w.now 0 input)
        → state result.first ≡ cipher w.now input)
        × ((input : List ℕ) → state start.second ≡ rounds w.now done (add_round_key w.now 0 input)
        → state result.second ≡ cipher w.now input) }
{
    let mut s = start.first;
    let mut t = start.second;
    for round in done..FULL_ROUNDS {
        s = full_round(w, s, round + 1);
        t = full_round(w, t, round + 1);
    }
    let first = last_round(w, s);
    let second = last_round(w, t);
    States { first, second }
}

// The encipherment of a block.
pub(crate) fn encrypt_columns(w: &[u8; 176], input: Columns) -> Columns
    ensures { state result ≡ cipher w.now (state input) }
{
    let mut s = add(input, round_key(w, 0));
    for round in 0..FULL_ROUNDS {
        s = full_round(w, s, round + 1);
    }
    last_round(w, s)
}
