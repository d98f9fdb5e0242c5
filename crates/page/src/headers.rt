// Headers: the ranges of their fields, their 30 bytes, and the header that 30 bytes are.
ghost use Rattle.std.specs.Prelude.{◌≡◌, true, ◌<◌, get_or};
ghost use Rattle.base.specs.Part.{part, splice};
ghost use Rattle.base.specs.Each.{same};
ghost use Rattle.page.specs.Frame.{header_size, colon_space};
ghost use Rattle.page.specs.Header.{last_number, is_kind, is_event_letter, kind_at, within, in_plan, node_ranges, cut_off_ranges, keys_ranges, commit_ranges, in_range, node_frame, header_bytes, header_of, node_spelt, second_right, key_at, key_width, second_at, second_width, second_last_at, unit_at, unit_width, part_at, part_width, with_part, header_like};
ghost use Rattle.page.specs.Word.{word_bytes};
ghost use Rattle.page.specs.Column.{spell, pair_in};
ghost use Rattle.page.specs.declared.Frame.{Frame as HeaderFrame};

use crate::frames::{Header, Page};
use crate::{Frame, bytes, columns, keys, plan, words};

// Where the kind letter stands, where each number's columns start, and where colon and space follow them. Number and second
// have eight columns, the unit three, part and key four.
const KIND_AT: usize = 0;

const NUMBER_AT: usize = 1;

const UNIT_AT: usize = 9;

const PART_AT: usize = 12;

const KEY_AT: usize = 16;

const SECOND_AT: usize = 20;

const END_AT: usize = 28;

// The second number 224 in its eight columns, and in the last four of them, as words.
pub const SPELT_LONGEST: u64 = 0x3432322020202020;

const SPELT_LONGEST4: u32 = 0x34323220;

// The last number of each kind of field.
pub const LAST_NUMBER: u32 = 99_999_999;

const LAST_KEY_BLOCK: u32 = 1;

const LAST_KEY_PAGE: u32 = 15;

const LAST_PART: u32 = 9;

// Whether n is the number of a page: a sequence or an epoch, from 1.
fn is_number(n: u32) -> bool
    ensures { result ≡ within 1 last_number n }
{
    (1 <= n) & (n <= LAST_NUMBER)
}

// Whether the file is one of the plan and the offset below its count.
fn in_plan(f: Frame) -> bool
    ensures { result ≡ in_plan f }
{
    (f.unit <= plan::LAST_FILE) & (f.part < plan::count(f.unit))
}

// Whether the fields are those of a node.
fn is_node(f: Frame) -> bool
    ensures { result ≡ node_ranges f }
{
    is_number(f.number) & in_plan(f) & (f.key <= keys::LAST_POSITION) & (f.second <= Frame::LONGEST)
}

// Whether the fields are those of a cut-off.
fn is_cut_off(f: Frame) -> bool
    ensures { result ≡ cut_off_ranges f }
{
    is_number(f.number) & in_plan(f) & (f.key == 0) & (f.second == 0)
}

// Whether the fields are those of a page of keys.
fn is_keys(f: Frame) -> bool
    ensures { result ≡ keys_ranges f }
{
    is_number(f.number)
        & (f.unit <= LAST_KEY_BLOCK)
        & (f.part <= LAST_KEY_PAGE)
        & (f.key == 0)
        & (f.second == 0)
}

// Whether the fields are those of a part of a commit.
fn is_commit(f: Frame) -> bool
    ensures { result ≡ commit_ranges f }
{
    is_number(f.number)
        & (f.unit == 0)
        & (f.part <= LAST_PART)
        & (f.key == 0)
        & (f.second <= LAST_NUMBER)
}

// Whether the kind is one of the four letters and each field in that kind's range.
pub fn in_range(f: Frame) -> bool
    ensures { result ≡ in_range f }
{
    match f.kind {
        Frame::NODE_LETTER => is_node(f),
        Frame::CUT_OFF_LETTER => is_cut_off(f),
        Frame::KEYS_LETTER => is_keys(f),
        Frame::COMMIT_LETTER => is_commit(f),
        _ => false,
    }
}

// The same of a node or a cut-off.
// Stays (2): with in_range in its place a mount of a small image full of nodes takes 7 % more instructions, and a cut-off
// misses the bar of speed.
fn event_in_range(f: Frame) -> bool
    requires { is_event_letter f.kind ≡ true }
    ensures { result ≡ in_range f }
{
    if f.kind == Frame::NODE_LETTER {
        return is_node(f);
    }
    is_cut_off(f)
}

// Writes the header of f into the 30 bytes of dst.
pub fn write_header(dst: &mut Header, f: Frame)
    ensures { dst.new ≡ header_bytes f }
{
    columns::put_columns::<8>(dst, NUMBER_AT, f.number);
    columns::put_columns::<3>(dst, UNIT_AT, f.unit);
    columns::put_columns::<4>(dst, PART_AT, f.part);
    columns::put_columns::<4>(dst, KEY_AT, f.key);
    columns::put_columns::<8>(dst, SECOND_AT, f.second);
    bytes::copy(&mut dst[END_AT..Frame::HEADER], b": ");
    dst[KIND_AT] = f.kind;
}

// Whether b is one of the four kind letters.
fn is_kind(b: u8) -> bool
    ensures { result ≡ is_kind b }
{
    (b == Frame::NODE_LETTER)
        | (b == Frame::CUT_OFF_LETTER)
        | (b == Frame::KEYS_LETTER)
        | (b == Frame::COMMIT_LETTER)
}

// The header that 30 bytes are which end in colon and space.
fn read_fields(src: &Header) -> Option<Frame>
    requires { same (part src.now 28 2) colon_space ≡ true }
    ensures { result ≡ header_of src.now }
{
    let kind = src[KIND_AT];
    let number = columns::get::<8>(src, NUMBER_AT)?;
    let unit = columns::get::<3>(src, UNIT_AT)?;
    let part = columns::get::<4>(src, PART_AT)?;
    let key = columns::get::<4>(src, KEY_AT)?;
    let second = columns::get::<8>(src, SECOND_AT)?;
    let f = Frame {
        kind,
        number,
        unit,
        part,
        key,
        second,
    };
    in_range(f).then_some(f)
}

// The header that 30 bytes are. The kind letter and the end are looked at first: most bytes that are no header fail there.
pub(crate) fn read_header(src: &Header) -> Option<Frame>
    ensures { result ≡ header_of src.now }
{
    if !is_kind(src[KIND_AT]) {
        return None;
    }
    let ends = words::same::<2>(src, END_AT, b": ", 0);
    if !ends {
        return None;
    }
    read_fields(src)
}

// File and offset of a node's or a cut-off's header: the file's columns with a space before them, so that both have four.
fn read_place(src: &Header) -> Option<(u32, u32)>
    ensures { result ≡ pair_in (part src.now unit_at unit_width) (part src.now part_at part_width) }
{
    let file = words::four(b' ', src[UNIT_AT], src[UNIT_AT + 1], src[UNIT_AT + 2]);
    columns::pair_of(file, words::word4(src, PART_AT))
}

// Key position and second number of a node's or a cut-off's header, of the second number the last four columns. That of the
// longest payload is told at once.
fn read_key(src: &Header) -> Option<(u32, u32)>
    ensures { result ≡ pair_in (part src.now key_at key_width) (part src.now second_last_at 4) }
{
    let last = words::word4(src, Frame::SECOND_LAST_AT);
    if last != SPELT_LONGEST4 {
        return columns::pair_of(words::word4(src, KEY_AT), last);
    }
    let (key, _) = columns::pair_of(words::word4(src, KEY_AT), columns::SPELT_ZERO4)?;
    Some((key, Frame::LONGEST))
}

// The header that 30 bytes are whose kind letter is that of a node or a cut-off: the second number is below 10,000, so that
// its first four columns are spaces.
// Stays (2): read_header gives the same, and takes half as many instructions again at such a page. Where it went by the letter
// itself, a mount of a small image full of nodes took a fifth more.
pub(crate) fn read_event(src: &Header) -> Option<Frame>
    requires { is_event_letter (get_or src.now kind_at 0) ≡ true }
    ensures { result ≡ header_of src.now }
{
    if !words::is_word4(src, SECOND_AT, columns::SPACES) {
        return None;
    }
    if !words::same::<2>(src, END_AT, b": ", 0) {
        return None;
    }
    let number = columns::get::<8>(src, NUMBER_AT)?;
    let (unit, part) = read_place(src)?;
    let (key, second) = read_key(src)?;
    let kind = src[KIND_AT];
    let f = Frame {
        kind,
        number,
        unit,
        part,
        key,
        second,
    };
    event_in_range(f).then_some(f)
}

// Whether the file's columns of a header are those of a file, which are given as they are spelt.
fn is_file(src: &Header, file: u32, text: u32) -> bool
    requires { word_bytes 4 text ≡ spell 4 file }
    ensures { result ≡ same (part src.now unit_at unit_width) (spell unit_width file) }
{
    words::word4(src, UNIT_AT - 1) >> 8 == text >> 8
}

// Whether a header's second number is one that a node may have.
fn is_second(src: &Header) -> bool
    ensures { result ≡ second_right (part src.now second_at second_width) }
{
    if !words::is_word4(src, SECOND_AT, columns::SPACES) {
        return false;
    }
    let second = words::word4(src, Frame::SECOND_LAST_AT);
    let Some((n, _)) = columns::pair_of(second, columns::SPELT_ZERO4) else {
        return false;
    };
    n <= Frame::LONGEST
}

// The columns of the second number in a page's header, if a node may have it, else those of 224.
pub fn second_columns(page: &Page) -> u64
    ensures { second_right (word_bytes 8 result) ≡ true }
{
    let columns = words::word8(page, SECOND_AT);
    if columns == SPELT_LONGEST {
        return SPELT_LONGEST;
    }
    if is_second(bytes::array_at(page, 0)) {
        return columns;
    }
    SPELT_LONGEST
}

// Whether a header's second number is one that a node may have. It is read only where its columns are other than these, which
// are known to hold such a number.
pub(crate) fn has_second(src: &Header, known: u64) -> bool
    requires { second_right (word_bytes 8 known) ≡ true }
    ensures { result ≡ second_right (part src.now second_at second_width) }
{
    if words::word8(src, SECOND_AT) == known {
        return true;
    }
    is_second(src)
}

// Whether 30 bytes are spelt as the header of a node with these fields, whatever their sequence and second number. The file's
// columns are given as they are spelt.
pub(crate) fn is_node_of(src: &Header, file: u32, text: u32, offset: u32, position: u32) -> bool
    requires { (in_range (node_frame 1 file offset position 0) ≡ true) × (word_bytes 4 text ≡ spell 4 file) }
    ensures { result ≡ node_spelt file offset position src.now }
{
    let named = is_file(src, file, text)
        & columns::hold(
            words::word4(src, PART_AT),
            words::word4(src, KEY_AT),
            offset,
            position,
        );
    if !named {
        return false;
    }
    (src[KIND_AT] == Frame::NODE_LETTER)
        & words::same::<2>(src, END_AT, b": ", 0)
        & columns::is_counted(words::word8(src, NUMBER_AT))
}

// Whether 30 bytes are the header that first are, but for the part: all others are compared with theirs.
pub(crate) fn is_header_like(first: &Header, src: &Header, part: u32) -> bool
    requires part_bound { part < 10_000 }
    requires first_value { (f : HeaderFrame) × (header_of first.now ≡ Some f) × (in_range (with_part part f) ≡ true) }
    ensures { result ≡ header_like (header_of first.now) part (header_of src.now) }
{
    words::same::<8>(src, 0, first, 0)
        & words::same::<4>(src, 8, first, 8)
        & words::is_word4(src, PART_AT, columns::spelt4(part))
        & words::same::<8>(src, KEY_AT, first, KEY_AT)
        & words::same::<4>(src, 24, first, 24)
        & words::same::<2>(src, END_AT, first, END_AT)
}

// Puts a part into the 30 bytes of a header.
fn put_part(dst: &mut Header, part: u32)
    ensures { dst.new ≡ splice dst.old part_at (spell part_width part) }
{
    columns::put_columns::<4>(dst, PART_AT, part);
}

// Writes 30 bytes of a header, with another part, into dst.
pub(crate) fn write_header_like(dst: &mut Header, header: &Header, part: u32)
    ensures { dst.new ≡ splice header.now part_at (spell part_width part) }
{
    *dst = *header;
    put_part(dst, part);
}
