// Bytes taken together as one number, the first byte the lowest.
ghost use Rattle.std.specs.Prelude.{◌≡◌, [], ◌∷◌, ◌++◌, ◌≤◌, ◌+◌, ◌-◌, length, replicate};
ghost use Rattle.base.specs.Part.{part};
ghost use Rattle.base.specs.Each.{same as equal};
ghost use Rattle.page.specs.Word.{word_bytes};

use crate::bytes;

// The number of four bytes.
pub fn four(a: u8, b: u8, c: u8, d: u8) -> u32
    ensures { word_bytes 4 result ≡ a ∷ b ∷ c ∷ d ∷ [] }
{
    u32::from_le_bytes([a, b, c, d])
}

// The number of eight bytes, by their halves.
pub fn eight(low: u32, high: u32) -> u64
    ensures { word_bytes 8 result ≡ word_bytes 4 low ++ word_bytes 4 high }
{
    (low as u64) + (high as u64) * 0x100000000
}

// The four bytes of src from at on.
pub fn word4(src: &[u8], at: usize) -> u32
    requires { at + 4 ≤ length src.now }
    ensures { word_bytes 4 result ≡ part src.now at 4 }
{
    four(src[at], src[at + 1], src[at + 2], src[at + 3])
}

// The eight bytes of src from at on.
// Stays (2): a word of eight bytes has another type than one of four, and is made of two of them.
pub fn word8(src: &[u8], at: usize) -> u64
    requires { at + 8 ≤ length src.now }
    ensures { word_bytes 8 result ≡ part src.now at 8 }
{
    eight(word4(src, at), word4(src, at + 4))
}

// The N bytes of src from at on, at most eight, as one number.
fn word<const N: usize>(src: &[u8], at: usize) -> u64
    requires { (at + N ≤ length src.now) × (N ≤ 8) }
    ensures { word_bytes 8 result ≡ part src.now at N ++ replicate (8 - N) 0 }
{
    let mut all = [0u8; 8];
    bytes::copy(&mut all[..N], bytes::array_at::<N>(src, at));
    u64::from_le_bytes(all)
}

// Whether N bytes of a from i on, at most eight, are those of b from j on. They are compared as numbers: compared as arrays,
// two bytes take three instructions more, and a short read 13 %.
pub fn same<const N: usize>(a: &[u8], i: usize, b: &[u8], j: usize) -> bool
    requires { (i + N ≤ length a.now) × (j + N ≤ length b.now) × (N ≤ 8) }
    ensures { result ≡ equal (part a.now i N) (part b.now j N) }
{
    word::<N>(a, i) == word::<N>(b, j)
}

// Whether four bytes of a from i on are those of the word v.
pub fn is_word4(a: &[u8], i: usize, v: u32) -> bool
    requires { i + 4 ≤ length a.now }
    ensures { result ≡ equal (part a.now i 4) (word_bytes 4 v) }
{
    word4(a, i) == v
}
