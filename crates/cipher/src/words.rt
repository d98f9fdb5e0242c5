// Words of four bytes in 32-bit numbers, the first byte the lowest.
ghost use Rattle.std.specs.Prelude.{◌≡◌, ◌+◌, ◌≤◌, length};
ghost use Rattle.base.specs.Part.{part};
ghost use Rattle.cipher.specs.Words.{four, little_endian};

// The word of four bytes.
// Stays (4): with u32::from_le_bytes the compiler works out more addresses, and a stream takes a fourteenth more instructions.
pub(crate) fn from_le_bytes(a: u8, b: u8, c: u8, d: u8) -> u32
    ensures { little_endian result ≡ four a b c d }
{
    (a as u32) + (b as u32) * 0x100 + (c as u32) * 0x10000 + (d as u32) * 0x1000000
}

// The four bytes of src from at on, as a word.
pub(crate) fn word_at(src: &[u8], at: usize) -> u32
    requires { at + 4 ≤ length src.now }
    ensures { little_endian result ≡ part src.now at 4 }
{
    from_le_bytes(src[at], src[at + 1], src[at + 2], src[at + 3])
}
