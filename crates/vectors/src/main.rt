// The published examples of FIPS 197 and SP 800-38A, written as they come out of the cipher. The file stdout has the
// published values.
#![tactic(auto)]

use cipher::RoundKeys;
use std::io;

const WORD: usize = 4;

// FIPS 197, A.1 and B, and SP 800-38A: the key.
const KEY: [u8; 16] = *b"\x2b\x7e\x15\x16\x28\xae\xd2\xa6\xab\xf7\x15\x88\x09\xcf\x4f\x3c";

// FIPS 197, B: the input.
const INPUT_B: [u8; 16] = *b"\x32\x43\xf6\xa8\x88\x5a\x30\x8d\x31\x31\x98\xa2\xe0\x37\x07\x34";

// FIPS 197, C.1: the key and the plaintext.
const KEY_C1: [u8; 16] = *b"\x00\x01\x02\x03\x04\x05\x06\x07\x08\x09\x0a\x0b\x0c\x0d\x0e\x0f";

const PLAIN_C1: [u8; 16] = *b"\x00\x11\x22\x33\x44\x55\x66\x77\x88\x99\xaa\xbb\xcc\xdd\xee\xff";

// SP 800-38A, F.1 to F.5: the four blocks of plaintext.
const PLAIN: [[u8; 16]; 4] = [
    *b"\x6b\xc1\xbe\xe2\x2e\x40\x9f\x96\xe9\x3d\x7e\x11\x73\x93\x17\x2a",
    *b"\xae\x2d\x8a\x57\x1e\x03\xac\x9c\x9e\xb7\x6f\xac\x45\xaf\x8e\x51",
    *b"\x30\xc8\x1c\x46\xa3\x5c\xe4\x11\xe5\xfb\xc1\x19\x1a\x0a\x52\xef",
    *b"\xf6\x9f\x24\x45\xdf\x4f\x9b\x17\xad\x2b\x41\x7b\xe6\x6c\x37\x10",
];

// SP 800-38A, F.5: the first counter block.
const COUNTER: [u8; 16] = *b"\xf0\xf1\xf2\xf3\xf4\xf5\xf6\xf7\xf8\xf9\xfa\xfb\xfc\xfd\xfe\xff";

// Writes bytes in hexadecimal, and ends the line.
fn show(rt: &impl Print, bytes: &[u8]) -> io::Result<()> {
    for b in bytes {
        print!(rt; "{b:02x}")?;
    }
    println!(rt)
}

// Writes the words of round keys, one to a line.
fn show_words(rt: &impl Print, w: [u8; 176]) -> io::Result<()> {
    for word in w.chunks_exact(WORD) {
        show(rt, word)?;
    }
    Ok(())
}

// Enciphers a block and writes the result.
fn show_block(rt: &impl Print, keys: RoundKeys, block: [u8; 16]) -> io::Result<()> {
    let output = cipher::encrypt(keys, block);
    show(rt, &output)
}

// Counter block i: the first one plus i, modulo 2^128.
fn counter_block(i: usize) -> [u8; 16] {
    u128::from_be_bytes(COUNTER)
        .wrapping_add(i as u128)
        .to_be_bytes()
}

// Enciphers a block in counter mode with this counter block, and writes the result.
fn show_counter_block(
    rt: &impl Print,
    keys: RoundKeys,
    counter: [u8; 16],
    plain: [u8; 16],
) -> io::Result<()> {
    let mut output = cipher::encrypt(keys, counter);
    for (byte, other) in output.iter_mut().zip(plain) {
        *byte ^= other;
    }
    show(rt, &output)
}

fn show_fips_197(rt: &impl Print) -> io::Result<()> {
    println!(rt; "FIPS 197, A.1, key expansion")?;
    let keys = cipher::expand(KEY);
    let words = keys.bytes;
    show_words(rt, words)?;
    println!(rt; "FIPS 197, B, cipher")?;
    show_block(rt, keys, INPUT_B)?;
    println!(rt; "FIPS 197, C.1, cipher")?;
    show_block(rt, cipher::expand(KEY_C1), PLAIN_C1)
}

fn show_ecb(rt: &impl Print, keys: RoundKeys) -> io::Result<()> {
    println!(rt; "SP 800-38A, F.1.1, ECB-AES128")?;
    for plain in PLAIN {
        show_block(rt, keys, plain)?;
    }
    Ok(())
}

fn show_ctr(rt: &impl Print, keys: RoundKeys) -> io::Result<()> {
    println!(rt; "SP 800-38A, F.5.1, CTR-AES128")?;
    for (i, plain) in PLAIN.iter().enumerate() {
        show_counter_block(rt, keys, counter_block(i), *plain)?;
    }
    Ok(())
}

fn show_sp_800_38a(rt: &impl Print) -> io::Result<()> {
    let keys = cipher::expand(KEY);
    show_ecb(rt, keys)?;
    show_ctr(rt, keys)
}

// The counter mode from counter 0, on two blocks and a half of zeros: its key stream. No standard has this vector; the
// stored values are those of another implementation.
fn show_key_stream(rt: &impl Print) -> io::Result<()> {
    println!(rt; "counter mode from counter 0, key stream of 40 bytes")?;
    let mut text = [0u8; 40];
    cipher::apply_stream(cipher::expand(KEY), &mut text);
    show(rt, &text)
}

fn main(rt: HostRuntime) -> io::Result<()> {
    show_fips_197(&rt)?;
    show_sp_800_38a(&rt)?;
    show_key_stream(&rt)
}
