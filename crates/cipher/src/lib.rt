// AES-128 (FIPS 197) and its counter mode from counter 0 (SP 800-38A, 6.5).
#![tactic(auto)]

ghost use Rattle.std.specs.Prelude.{◌≡◌};
ghost use Rattle.cipher.specs.Cipher.{cipher};
ghost use Rattle.cipher.specs.KeyExpansion.{key_expansion};
ghost use Rattle.cipher.specs.CounterMode.{counter_mode};

mod caching; // the first two rounds of the counter mode
mod columns; // a state as four columns
mod expansion; // the key expansion
mod rounds; // the rounds of the cipher
mod stream; // the counter mode
mod tables; // the S-box and the round table
mod words; // 32-bit words

// The eleven round keys of a key, one after the other.
#[derive(Clone, Copy)]
pub struct RoundKeys {
    pub bytes: [u8; 176],
}

// The round keys of a key.
pub fn expand(key: [u8; 16]) -> RoundKeys
    ensures { result.bytes ≡ key_expansion key }
{
    let bytes = expansion::expand_key(key);
    RoundKeys { bytes }
}

// The encipherment of one block.
pub fn encrypt(keys: RoundKeys, block: [u8; 16]) -> [u8; 16]
    ensures { result ≡ cipher keys.bytes block }
{
    let w = keys.bytes;
    let input = columns::from_block(block);
    columns::to_block(rounds::encrypt_columns(&w, input))
}

// Enciphers text in place, or deciphers it: adds the key stream.
pub fn apply_stream(keys: RoundKeys, text: &mut [u8])
    ensures { text.new ≡ counter_mode keys.bytes text.old }
{
    stream::add_key_stream(&keys.bytes, text)
}
