// Runs of bytes: one value throughout, a copy, and a part.
ghost use Rattle.std.specs.Prelude.{◌≡◌, ◌+◌, ◌≤◌, length, replicate};
ghost use Rattle.base.specs.Part.{part};
ghost use Rattle.base.specs.Each.{same as equal};

// Sets every byte of dst to v.
pub fn fill(dst: &mut [u8], v: u8)
    ensures { dst.new ≡ replicate (length dst.old) v }
{
    dst.fill(v);
}

// Copies src over dst, which is as long.
// Stays (3): copy_from_slice becomes a call of memmove, and so does the assignment of a payload; the library asks C for memcpy
// and memset alone.
pub fn copy(dst: &mut [u8], src: &[u8])
    requires { length dst.old ≡ length src.now }
    ensures { dst.new ≡ src.now }
{
    for (i, b) in src.iter().enumerate() {
        dst[i] = *b;
    }
}

// The N bytes of src from at on.
pub(crate) fn array_at<const N: usize>(src: &[u8], at: usize) -> &[u8; N]
    requires { at + N ≤ length src.now }
    ensures { result.now ≡ part src.now at N }
{
    src[at..at + N].as_array().unwrap()
}

// Whether two runs of one length are the same bytes. The loop has no other way out, so that it goes over many bytes at once.
// Stays (3): with == a short read on a small image takes 2 to 3 % more instructions, and misses the bar of speed by
// that.
pub(crate) fn same(a: &[u8], b: &[u8]) -> bool
    requires { length a.now ≡ length b.now }
    ensures { result ≡ equal a.now b.now }
{
    let mut all = true;
    for (i, x) in a.iter().enumerate() {
        all &= *x == b[i];
    }
    all
}
