// A state as four columns, each a word with row 0 in its lowest byte.
ghost use Rattle.std.specs.Prelude.{◌≡◌};
ghost use Rattle.cipher.specs.Words.{xor_bytes};
ghost use Rattle.cipher.specs.State.{state};

use crate::words::from_le_bytes;

// The bytes of a block.
pub(crate) const BLOCK: usize = 16;

#[derive(Clone, Copy)]
pub(crate) struct Columns {
    pub(crate) c0: u32,
    pub(crate) c1: u32,
    pub(crate) c2: u32,
    pub(crate) c3: u32,
}

// The state of a block.
pub(crate) fn from_block(b: [u8; 16]) -> Columns
    ensures { state result ≡ b }
{
    Columns {
        c0: from_le_bytes(b[0], b[1], b[2], b[3]),
        c1: from_le_bytes(b[4], b[5], b[6], b[7]),
        c2: from_le_bytes(b[8], b[9], b[10], b[11]),
        c3: from_le_bytes(b[12], b[13], b[14], b[15]),
    }
}

// The block of a state.
pub(crate) fn to_block(s: Columns) -> [u8; 16]
    ensures { result ≡ state s }
{
    let [a0, a1, a2, a3] = s.c0.to_le_bytes();
    let [b0, b1, b2, b3] = s.c1.to_le_bytes();
    let [c0, c1, c2, c3] = s.c2.to_le_bytes();
    let [d0, d1, d2, d3] = s.c3.to_le_bytes();
    [
        a0, a1, a2, a3, b0, b1, b2, b3, c0, c1, c2, c3, d0, d1, d2, d3,
    ]
}

// The sum of two states, byte by byte.
pub(crate) fn add(s: Columns, k: Columns) -> Columns
    ensures { state result ≡ xor_bytes (state s) (state k) }
{
    Columns {
        c0: s.c0 ^ k.c0,
        c1: s.c1 ^ k.c1,
        c2: s.c2 ^ k.c2,
        c3: s.c3 ^ k.c3,
    }
}
