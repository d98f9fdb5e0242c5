// C entry points into the crate `cipher`.
ghost use Rattle.std.specs.Prelude.{◌≡◌};
ghost use Rattle.harness.specs.Answer.{answer};
ghost use Rattle.harness.specs.Cipher.{expand_answer, encrypt_answer, stream_answer};

use crate::{DONE, REFUSED};

const KEY: usize = 16;

const BLOCK: usize = 16;

const SCHEDULE: usize = 176;

// The round keys of a key of 16 bytes, into 176 bytes.
#[unsafe(no_mangle)]
#[tactic(auto, unfolding(crate::specs::Cipher::expand_answer))]
pub extern "C" fn harness_expand(key: &[u8], schedule: &mut [u8]) -> u32
    ensures { answer result schedule.new ≡ expand_answer key.now schedule.old }
{
    let Some(key) = key.as_array::<KEY>() else {
        return REFUSED;
    };
    let Some(schedule) = schedule.as_mut_array::<SCHEDULE>() else {
        return REFUSED;
    };
    let keys = cipher::expand(*key);
    let round_keys = keys.bytes;
    *schedule = round_keys;
    DONE
}

// Enciphers a block of 16 bytes in place, under a key of 16 bytes.
#[unsafe(no_mangle)]
#[tactic(auto, unfolding(crate::specs::Cipher::encrypt_answer))]
pub extern "C" fn harness_encrypt(key: &[u8], block: &mut [u8]) -> u32
    ensures { answer result block.new ≡ encrypt_answer key.now block.old }
{
    let Some(key) = key.as_array::<KEY>() else {
        return REFUSED;
    };
    let Some(block) = block.as_mut_array::<BLOCK>() else {
        return REFUSED;
    };
    *block = cipher::encrypt(cipher::expand(*key), *block);
    DONE
}

// Enciphers or deciphers text of any length in place, in counter mode under a key of 16 bytes.
#[unsafe(no_mangle)]
#[tactic(auto, unfolding(crate::specs::Cipher::stream_answer))]
pub extern "C" fn harness_stream(key: &[u8], text: &mut [u8]) -> u32
    ensures { answer result text.new ≡ stream_answer key.now text.old }
{
    let Some(key) = key.as_array::<KEY>() else {
        return REFUSED;
    };
    cipher::apply_stream(cipher::expand(*key), text);
    DONE
}
