// Decimal columns: a number right-justified with spaces, without leading zeros.
ghost use Rattle.std.specs.Prelude.{◌≡◌, true, false, cond, ◌&&◌, ◌+◌, ◌*◌, ◌-◌, ◌/◌, ◌%◌, ◌≤◌, ◌<◌, length, leb, ltb};
ghost use Rattle.base.specs.Part.{part, splice};
ghost use Rattle.base.specs.Each.{same};
ghost use Rattle.page.specs.Word.{word_bytes};
ghost use Rattle.page.specs.Column.{spell, value_after, number_in, number_then, pair_in};

use crate::{bytes, words};

const SPACE: u8 = 0x20;

// The same byte in each byte of a word: the digit 0, the bit in which a space differs from it, the lower and the upper
// half of a byte, and what carries 10 to 15 from the lower half into the upper.
const ZEROS: u64 = 0x3030303030303030;

const SPACE_BITS: u64 = 0x1010101010101010;

const LOW_HALVES: u64 = 0x0f0f0f0f0f0f0f0f;

const HIGH_HALVES: u64 = 0xf0f0f0f0f0f0f0f0;

const SIXES: u64 = 0x0606060606060606;

// Every other byte of a word, every other two, and its first half.
const EVEN_BYTES: u64 = 0x00ff00ff00ff00ff;

const EVEN_PAIRS: u64 = 0x0000ffff0000ffff;

const FIRST_HALF: u64 = 0x00000000ffffffff;

// Four columns of spaces, and the number 0 in four columns and in eight, as words.
pub(crate) const SPACES: u32 = 0x20202020;

pub(crate) const SPELT_ZERO4: u32 = 0x30202020;

const SPELT_ZERO: u64 = 0x3020202020202020;

// Four columns of which the last two, the last three and all have the digit 0, as words.
const TWO_ZEROS: u32 = 0x30302020;

const THREE_ZEROS: u32 = 0x30303020;

const FOUR_ZEROS: u32 = 0x30303030;

// 1 in the second of four columns, in the third and in the last.
const SECOND: u32 = 0x100;

const THIRD: u32 = 0x10000;

const LAST: u32 = 0x1000000;

// A number that is counted down stands in a word above the times: 1 of it there, and all bits below that.
const ABOVE: u32 = 0x10000;

const BELOW: u32 = 0xffff;

const ABOVE_LONG: u64 = 0x10000;

const BELOW_LONG: u64 = 0xffff;

// Of each four columns in a word: a bit of the last one's digit, and the lowest bit of the first.
const LAST_DIGITS: u64 = 0x0100000001000000;

const FIRST_BITS: u64 = 0x0000000100000001;

// x, but where it is not below p, without p and with c.
fn less(x: u32, p: u32, c: u32) -> u32
    requires { c ≤ p }
    ensures { result ≡ cond (ltb x p) x (x - p + c) }
{
    if x < p {
        return x;
    }
    x - p + c
}

// Counts p down from x, by eights, fours, twos and ones: c for each time, below what is left of x.
fn counted(x: u32, p: u32, c: u32) -> u32
    requires { (x < 16 * p) × (8 * p < 0x100000000) × (x % p + 15 * c < p) }
    ensures { result ≡ x % p + x / p * c }
{
    let eights = less(x, 8 * p, 8 * c);
    let fours = less(eights, 4 * p, 4 * c);
    let twos = less(fours, 2 * p, 2 * c);
    less(twos, p, c)
}

// The same of a longer word.
// Stays (2): numbers have 32 bits but for those from 10,000 on (DECISIONS, "The machine"). A trait of both types would have a
// body for each of +, -, * and < and a law of it, which is longer than these two functions.
fn less_long(w: u64, p: u64, c: u64) -> u64
    requires { c ≤ p }
    ensures { result ≡ cond (ltb w p) w (w - p + c) }
{
    if w < p {
        return w;
    }
    w - p + c
}

// Counts p down from a longer word in the same way.
fn counted_long(w: u64, p: u64, c: u64) -> u64
    requires { (w < 16 * p) × (8 * p < 0x10000000000000000) × (w % p + 15 * c < p) }
    ensures { result ≡ w % p + w / p * c }
{
    let eights = less_long(w, 8 * p, 8 * c);
    let fours = less_long(eights, 4 * p, 4 * c);
    let twos = less_long(fours, 2 * p, 2 * c);
    less_long(twos, p, c)
}

// The digits of a number below 100, in the last two of four columns, without what makes them characters.
fn two_digits(n: u32) -> u32
    requires { n < 100 }
    ensures { result ≡ n / 10 * 0x10000 + n % 10 * 0x1000000 }
{
    counted(n * LAST, 10 * LAST, THIRD)
}

// The same of a number below 1,000, in the last three.
// Stays (2): with the function for four digits alone a write takes 6 % more instructions and a cut-off 14 %.
fn three_digits(n: u32) -> u32
    requires { n < 1000 }
    ensures { result ≡ n / 100 * 0x100 + n % 100 / 10 * 0x10000 + n % 10 * 0x1000000 }
{
    let hundreds = counted(n * ABOVE, 100 * ABOVE, 1);
    counted(hundreds * SECOND, 10 * LAST, THIRD)
}

// The same of a number below 10,000, in all four.
fn four_digits(n: u32) -> u32
    requires { n < 10_000 }
    ensures { result ≡ n / 1000 + n % 1000 / 100 * 0x100 + n % 100 / 10 * 0x10000 + n % 10 * 0x1000000 }
{
    let thousands = counted(n * ABOVE, 1000 * ABOVE, 1);
    let hundreds = counted(thousands, 100 * ABOVE, SECOND);
    counted(
        (hundreds & BELOW) + (hundreds >> 16) * LAST,
        10 * LAST,
        THIRD,
    )
}

// Four columns of a number below 100, as one word.
fn spelt_short(n: u32) -> u32
    requires { n < 100 }
    ensures { word_bytes 4 result ≡ spell 4 n }
{
    if n < 10 {
        return SPELT_ZERO4 + n * LAST;
    }
    two_digits(n) + TWO_ZEROS
}

// The same of a number of three or four digits.
// Stays (2): in one function with spelt_short and spelt4, which stands in line where it is called, a cut-off took 2 to 4 %
// more instructions, which misses the bar of speed, and a commit on a small image 5 %.
fn spelt_middle(n: u32) -> u32
    requires { (100 ≤ n) × (n < 10_000) }
    ensures { word_bytes 4 result ≡ spell 4 n }
{
    if n < 1000 {
        return three_digits(n) + THREE_ZEROS;
    }
    four_digits(n) + FOUR_ZEROS
}

// The four columns of a number below 10,000, as one word.
pub fn spelt4(n: u32) -> u32
    requires { n < 10_000 }
    ensures { word_bytes 4 result ≡ spell 4 n }
{
    if n < 100 {
        return spelt_short(n);
    }
    spelt_middle(n)
}

// How often 10,000 goes into a number of at most eight digits, below what is left of it.
fn ten_thousands(n: u32) -> u64
    requires { n < 100_000_000 }
    ensures { result ≡ n % 10_000 * 0x10000 + n / 10_000 }
{
    let a = counted_long((n as u64) * ABOVE_LONG, 10_000_000 * ABOVE_LONG, 1000);
    let b = counted_long(a, 1_000_000 * ABOVE_LONG, 100);
    let c = counted_long(b, 100_000 * ABOVE_LONG, 10);
    counted_long(c, 10_000 * ABOVE_LONG, 1)
}

// How often 100,000,000 goes into a number, below what is left of it.
fn hundred_millions(n: u32) -> u64
    ensures { result ≡ n % 100_000_000 * 0x10000 + n / 100_000_000 }
{
    let a = counted_long((n as u64) * ABOVE_LONG, 1_000_000_000 * ABOVE_LONG, 10);
    counted_long(a, 100_000_000 * ABOVE_LONG, 1)
}

// Eight columns of a number from 10,000 on, as one word: of a longer one its last eight digits.
fn spelt_long(n: u32) -> u64
    requires { 10_000 ≤ n }
    ensures { word_bytes 8 result ≡ spell 8 n }
{
    if n < 100_000_000 {
        let x = ten_thousands(n);
        return words::eight(
            spelt4((x & BELOW_LONG) as u32),
            four_digits((x >> 16) as u32) + FOUR_ZEROS,
        );
    }
    let x = ten_thousands((hundred_millions(n) >> 16) as u32);
    words::eight(
        four_digits((x & BELOW_LONG) as u32) + FOUR_ZEROS,
        four_digits((x >> 16) as u32) + FOUR_ZEROS,
    )
}

// Four columns of any number, as one word: of a longer one its last four digits.
// Stays (2): by spelt4 a cut-off took 14 % more instructions, and 2 to 4 % where that one is put in line.
fn spelt_low(n: u32) -> u32
    ensures { word_bytes 4 result ≡ spell 4 n }
{
    if n < 100 {
        return spelt_short(n);
    }
    if n < 10_000 {
        return spelt_middle(n);
    }
    (spelt_long(n) >> 32) as u32
}

// Eight columns of any number, as one word: of a longer one its last eight digits.
fn spelt8(n: u32) -> u64
    ensures { word_bytes 8 result ≡ spell 8 n }
{
    if n < 10_000 {
        return words::eight(SPACES, spelt4(n));
    }
    spelt_long(n)
}

// The twelve columns of a number: none has more digits.
fn twelve(n: u32) -> [u8; 12]
    ensures { result ≡ spell 12 n }
{
    let mut columns = [SPACE; 12];
    put_columns::<8>(&mut columns, 4, n);
    if 100_000_000 <= n {
        let x = hundred_millions(n);
        put_columns::<4>(&mut columns, 0, (x & BELOW_LONG) as u32);
    }
    columns
}

// Writes n into the columns of dst.
pub(crate) fn put(dst: &mut [u8], n: u32)
    requires { 1 ≤ length dst.old }
    ensures { dst.new ≡ spell (length dst.old) n }
{
    let w = dst.len();
    let columns = twelve(n);
    if w <= 12 {
        bytes::copy(dst, &columns[12 - w..]);
        return;
    }
    bytes::fill(&mut dst[..w - 12], SPACE);
    bytes::copy(&mut dst[w - 12..], &columns);
}

// Writes n into the w columns of dst from at on.
pub fn put_at(dst: &mut [u8], at: usize, w: usize, n: u32)
    requires { (at + w ≤ length dst.old) × (1 ≤ w) }
    ensures { dst.new ≡ splice dst.old at (spell w n) }
{
    put(&mut dst[at..at + w], n);
}

// Writes n into the N columns of dst from at on: the last of four, or of eight.
pub(crate) fn put_columns<const N: usize>(dst: &mut [u8], at: usize, n: u32)
    requires { (at + N ≤ length dst.old) × (1 ≤ N) × (N ≤ 8) }
    ensures { dst.new ≡ splice dst.old at (spell N n) }
{
    if N <= 4 {
        bytes::copy(&mut dst[at..at + N], &spelt_low(n).to_le_bytes()[4 - N..]);
    } else {
        bytes::copy(&mut dst[at..at + N], &spelt8(n).to_le_bytes()[8 - N..]);
    }
}

// Whether the eight columns of a word hold a number from 1 on: below the lowest digit that is not 0 spaces, above it digits.
pub(crate) fn is_counted(v: u64) -> bool
    ensures { result ≡ number_then (number_in (word_bytes 8 v)) false (leb 1) }
{
    let changed = v ^ ZEROS;
    let spaces = changed & SPACE_BITS;
    let digits = changed ^ spaces;
    if digits == 0 {
        return false;
    }
    let over = digits | ((digits & LOW_HALVES) + SIXES);
    (over & HIGH_HALVES == 0) & (spaces == (digits ^ (digits - 1)) & SPACE_BITS)
}

// The number that the eight columns of a word hold, if it is one from 1 on: digits are joined to pairs, pairs to fours.
fn value_of(v: u64) -> u32
    requires { number_then (number_in (word_bytes 8 v)) false (leb 1) ≡ true }
    ensures { result ≡ value_after 0 (word_bytes 8 v) }
{
    let digits = v & LOW_HALVES;
    let pairs = ((digits & EVEN_BYTES) * 10 + (digits >> 8)) & EVEN_BYTES;
    let fours = ((pairs & EVEN_PAIRS) * 100 + (pairs >> 16)) & EVEN_PAIRS;
    ((fours & FIRST_HALF) * 10000 + (fours >> 32)) as u32
}

// The number that the eight columns of a word hold.
fn number_of(v: u64) -> Option<u32>
    ensures { result ≡ number_in (word_bytes 8 v) }
{
    if v == SPELT_ZERO {
        return Some(0);
    }
    if !is_counted(v) {
        return None;
    }
    Some(value_of(v))
}

// The number that the N columns of src from at on hold, as eight columns with spaces before them.
pub(crate) fn get<const N: usize>(src: &[u8], at: usize) -> Option<u32>
    requires { (at + N ≤ length src.now) × (1 ≤ N) × (N ≤ 8) }
    ensures { result ≡ number_in (part src.now at N) }
{
    let mut columns = [SPACE; 8];
    bytes::copy(&mut columns[8 - N..], bytes::array_at::<N>(src, at));
    number_of(u64::from_le_bytes(columns))
}

// The numbers that two words of four columns hold, worked out as one word. In each, spaces stand before the first digit
// that is not 0, or up to the last column, and digits from there on.
pub(crate) fn pair_of(low: u32, high: u32) -> Option<(u32, u32)>
    ensures { result ≡ pair_in (word_bytes 4 low) (word_bytes 4 high) }
{
    let changed = words::eight(low, high) ^ ZEROS;
    let spaces = changed & SPACE_BITS;
    let digits = changed ^ spaces;
    let over = digits | ((digits & LOW_HALVES) + SIXES);
    let marked = digits | LAST_DIGITS;
    let before = (marked ^ (marked - FIRST_BITS)) & SPACE_BITS;
    let right = (over & HIGH_HALVES == 0) & (spaces == before);
    if !right {
        return None;
    }
    let pairs = ((digits & EVEN_BYTES) * 10 + (digits >> 8)) & EVEN_BYTES;
    let fours = ((pairs & EVEN_PAIRS) * 100 + (pairs >> 16)) & EVEN_PAIRS;
    let first = (fours & FIRST_HALF) as u32;
    let second = (fours >> 32) as u32;
    Some((first, second))
}

// Whether two words of four columns hold these numbers.
pub(crate) fn hold(low: u32, high: u32, a: u32, b: u32) -> bool
    requires { (a < 10_000) × (b < 10_000) }
    ensures { result ≡ same (word_bytes 4 low) (spell 4 a) && same (word_bytes 4 high) (spell 4 b) }
{
    let Some((first, second)) = pair_of(low, high) else {
        return false;
    };
    (first == a) & (second == b)
}
