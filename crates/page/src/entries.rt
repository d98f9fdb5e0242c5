// A commit's payloads: the letters of key positions, and the entries of places.
ghost use Rattle.std.specs.Prelude.{◌≡◌, ◌&&◌, ◌≤◌, ◌<◌, ◌+◌, ◌*◌, length, get_or, eqb};
ghost use Rattle.base.specs.Part.{part};
ghost use Rattle.base.specs.Each.{same};
ghost use Rattle.base.specs.Search.{all_from};
ghost use Rattle.page.specs.Frame.{payload_size};
ghost use Rattle.page.specs.Plan.{places};
ghost use Rattle.page.specs.Entry.{none, is_letter, vacant_entry, entry_size, entries_in_part, parts, entry_bytes, entry_of, is_entry, entries_from, commit_payload, valid_payload};

use crate::frames::Payload;
use crate::keys::Letters;
use crate::plan::Map;
use crate::{Entry, Frame, bytes, columns, keys, plan, words};

// The letters of a key position: free, used, deleted.
// Stays (1): C keeps and lends the list of them, a letter for each position (johvimaru.h).
pub const FREE: u8 = b'f';

pub const USED: u8 = b'u';

pub const DELETED: u8 = b'd';

// None, in a map.
// Stays (1): C keeps and lends the map, with 65,535 where there is none (johvimaru.h).
pub const NONE: u16 = 65_535;

// A commit has 10 parts.
pub const PARTS: usize = 10;

// An entry has 8 bytes; a part holds 28 of them, from part 2 on.
pub const ENTRY_SIZE: usize = 8;

pub const ENTRIES_IN_PART: usize = 28;

pub const FIRST_ENTRY_PART: usize = 2;

// Four numbers of a map taken as one, each of them none.
const FOUR_NONE: u64 = 0xffffffffffffffff;

// Where the columns of its page and of its key start.
const PAGE_AT: usize = 0;

const KEY_AT: usize = 4;

// The last page that an entry can name.
const LAST_PAGE: u32 = 4095;

// Whether b is a letter of a key position.
pub fn is_letter(b: u8) -> bool
    ensures { result ≡ is_letter b }
{
    (b == FREE) | (b == USED) | (b == DELETED)
}

// Writes the entry of a page and a key, as a map has them.
pub fn write_entry(dst: &mut [u8; ENTRY_SIZE], page: u16, key: u16)
    ensures { dst.new ≡ entry_bytes page key }
{
    if page == NONE {
        *dst = *b"   -   -";
    } else {
        columns::put_columns::<4>(dst, PAGE_AT, page as u32);
        columns::put_columns::<4>(dst, KEY_AT, key as u32);
    }
}

// Whether 8 bytes are the vacant entry.
fn is_vacant(src: &[u8; ENTRY_SIZE]) -> bool
    ensures { result ≡ same src.now vacant_entry }
{
    words::same::<8>(src, 0, b"   -   -", 0)
}

// The entry that 8 bytes are.
pub fn read_entry(src: &[u8; ENTRY_SIZE]) -> Entry
    ensures { result ≡ entry_of src.now }
{
    if is_vacant(src) {
        return Entry::Vacant;
    }
    let numbers = columns::pair_of(words::word4(src, PAGE_AT), words::word4(src, KEY_AT));
    let Some((page, key)) = numbers else {
        return Entry::Misspelt;
    };
    if LAST_PAGE < page {
        return Entry::Misspelt;
    }
    if keys::LAST_POSITION < key {
        return Entry::Misspelt;
    }
    Entry::At(page, key)
}

// The entry at byte at of a payload.
pub fn entry_at(payload: &Payload, at: usize) -> Entry
    requires { at + entry_size ≤ payload_size }
    ensures { result ≡ entry_of (part payload.now at entry_size) }
{
    read_entry(bytes::array_at(payload, at))
}

// Whether four numbers of a map are none: they are looked at as one.
// Stays (4): with starts_with the test whether a record fits takes a fifth more instructions.
fn are_none(a: u16, b: u16, c: u16, d: u16) -> bool
    ensures { result ≡ eqb a none && (eqb b none && (eqb c none && eqb d none)) }
{
    let four = (a as u64)
        + (b as u64) * 0x10000
        + (c as u64) * 0x100000000
        + (d as u64) * 0x1000000000000;
    four == FOUR_NONE
}

// The same of the four from at on.
pub fn all_none(map: &[u16], at: usize) -> bool
    requires { at + 4 ≤ length map.now }
    ensures { result ≡ all_from (λ i. eqb (get_or map.now i none) none) 4 at }
{
    are_none(map[at], map[at + 1], map[at + 2], map[at + 3])
}

// Writes the entries of a map's places from first on, as many as a part holds.
fn write_entries(dst: &mut Payload, map: &Map, first: usize)
    requires { first + entries_in_part ≤ places }
    ensures { dst.new ≡ entries_from map.now entries_in_part first }
{
    for j in 0..ENTRIES_IN_PART {
        let y = first + j;
        let (_, rest) = dst.split_at_mut(ENTRY_SIZE * j);
        write_entry(
            rest.first_chunk_mut().unwrap(),
            map[y],
            map[plan::PLACES + y],
        );
    }
}

// Writes the payload of a commit's part i.
pub fn write_commit_payload(dst: &mut Payload, map: &Map, letters: &Letters, i: usize)
    requires { i < parts }
    ensures { dst.new ≡ commit_payload map.now letters.now i }
{
    if i < FIRST_ENTRY_PART {
        let at = Frame::PAYLOAD * i;
        bytes::copy(dst, &letters[at..at + Frame::PAYLOAD]);
    } else {
        write_entries(dst, map, ENTRIES_IN_PART * (i - FIRST_ENTRY_PART));
    }
}

// Whether every byte of a payload is a letter. The loop has no other way out, so that it goes over many bytes at once.
fn all_letters(payload: &Payload) -> bool
    ensures { result ≡ all_from (λ j. is_letter (get_or payload.now j 0)) payload_size 0 }
{
    let mut all = true;
    for b in payload {
        all &= is_letter(*b);
    }
    all
}

// Whether 8 bytes are an entry.
fn is_entry(src: &[u8; ENTRY_SIZE]) -> bool
    ensures { result ≡ is_entry (entry_of src.now) }
{
    !matches!(read_entry(src), Entry::Misspelt)
}

// Whether every entry of a payload is vacant: the first is, and each byte is as the one an entry before it.
pub fn all_vacant(payload: &Payload) -> bool
    ensures { result
        ≡ all_from (λ j. same (part payload.now (entry_size * j) entry_size) vacant_entry) entries_in_part 0 }
{
    bytes::same(
        &payload[ENTRY_SIZE..Frame::PAYLOAD],
        &payload[0..Frame::PAYLOAD - ENTRY_SIZE],
    ) & words::same::<8>(payload, 0, b"   -   -", 0)
}

// Whether a payload holds entries throughout. Most hold vacant ones only.
// Stays (3): with all over chunks_exact, and over the arrays of as_chunks, the proof did not close: the search gave up at
// what all says of the run of its iterator.
fn all_entries(payload: &Payload) -> bool
    ensures { result
        ≡ all_from (λ j. is_entry (entry_of (part payload.now (entry_size * j) entry_size))) entries_in_part 0 }
{
    if all_vacant(payload) {
        return true;
    }
    for j in 0..ENTRIES_IN_PART {
        let at = ENTRY_SIZE * j;
        if !is_entry(bytes::array_at(payload, at)) {
            return false;
        }
    }
    true
}

// Whether a payload is valid as that of a commit's part i.
pub fn valid_payload(payload: &Payload, i: usize) -> bool
    ensures { result ≡ valid_payload i payload.now }
{
    if i < FIRST_ENTRY_PART {
        all_letters(payload)
    } else {
        all_entries(payload)
    }
}
