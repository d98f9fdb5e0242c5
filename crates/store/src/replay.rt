// Mount's pass over the pages: what the commit says of each place and position, then every whole or torn N or D page in order.
ghost use Rattle.std.specs.Prelude.{◌≡◌, true, false, cond, ◌&&◌, ℕ, ◌≤◌, ◌<◌, ◌+◌, ◌*◌, ◌/◌, max, length, set, replicate, eqb, leb, ltb};
ghost use Rattle.page.specs.Frame.{payload_size};
ghost use Rattle.page.specs.Plan.{places};
ghost use Rattle.page.specs.Header.{in_range, node_letter, is_event_letter};
ghost use Rattle.page.specs.Key.{positions};
ghost use Rattle.page.specs.Entry.{none, free_letter, deleted_letter, entries_in_part};
ghost use Rattle.image.specs.Size.{block_size, pages_in_block, most_blocks, blocks, pages, size_right};
ghost use Rattle.image.specs.Look.{letter_at};
ghost use Rattle.store.specs.Kind.{kind_of};
ghost use Rattle.store.specs.Record.{map_size};
ghost use Rattle.store.specs.Mount.{letter_in, entry_in, by_entry, decide_by};
ghost use Rattle.store.specs.Replay.{pass, EachPlace, EachLetter, part_read, LettersRead, outranks, Passed, Replayed};

use crate::kinds::{MOST_BLOCKS, Marks};
use crate::{Kind, format, kinds, record};
use image::look;
use image::look::PAGES_IN_BLOCK;
use page::entries::{ENTRIES_IN_PART, ENTRY_SIZE, FIRST_ENTRY_PART, PARTS};
use page::frames::Payload;
use page::keys::{Letters, POSITIONS};
use page::plan::{Map, PLACES};
use page::{Entry, Form, Frame, entries, plan};

// The sequence that decided each place, 0 where its entry did.
pub type Scratch = [u32; PLACES];

// What the pages passed say beside the lists: the blocks that have an event above the covered sequence, and the highest
// sequence.
#[derive(Clone, Copy)]
pub struct Seen {
    pub events: Marks,
    pub highest: u32,
}

// The page and the key position that an entry gives, none for both where it gives no page.
fn page_and_key(entry: Entry) -> (u16, u16)
    requires { ((by_entry entry).page ≤ none) × ((by_entry entry).key ≤ none) }
    ensures { (result.0 ≡ (by_entry entry).page) × (result.1 ≡ (by_entry entry).key) }
{
    match entry {
        Entry::At(page, key) => (page as u16, key as u16),
        Entry::Vacant | Entry::Misspelt => (entries::NONE, entries::NONE),
    }
}

// Puts a sequence, a page and a key at place x.
fn put_place(map: &mut Map, scratch: &mut Scratch, x: usize, sequence: u32, page: u16, key: u16)
    requires { x < places }
    ensures { EachPlace (λ y held. cond (eqb x y) (record { sequence = sequence; page = page; key = key }) held)
        map.old scratch.old map.new scratch.new }
{
    scratch[x] = sequence;
    map[x] = page;
    map[PLACES + x] = key;
}

// Puts the entries of a part's payload at its places, which begin with first.
fn read_part(payload: &Payload, map: &mut Map, scratch: &mut Scratch, first: usize)
    requires { first + entries_in_part ≤ places }
    ensures { EachPlace (part_read payload.now first (first + entries_in_part)) map.old scratch.old map.new
        scratch.new }
{
    for j in 0..ENTRIES_IN_PART {
        let (page, key) = page_and_key(entries::entry_at(payload, ENTRY_SIZE * j));
        put_place(map, scratch, first + j, 0, page, key);
    }
}

// Makes every number 0.
pub fn clear_scratch(scratch: &mut Scratch)
    ensures { scratch.new ≡ replicate places 0 }
{
    scratch.fill(0);
}

// Puts the commit's entry at every place: first none at each, then what the parts say that are not vacant throughout.
fn read_entries(image: &[u8], c: usize, map: &mut Map, scratch: &mut Scratch)
    requires { c * block_size + block_size ≤ length image.now }
    ensures { EachPlace (λ x held. by_entry (entry_in image.now c x)) map.old scratch.old map.new
        scratch.new }
{
    format::clear_map(map);
    clear_scratch(scratch);
    for part in FIRST_ENTRY_PART..PARTS {
        let payload = look::payload_at(image, c * PAGES_IN_BLOCK + part);
        if !entries::all_vacant(payload) {
            let first = ENTRIES_IN_PART * (part - FIRST_ENTRY_PART);
            read_part(payload, map, scratch, first);
        }
    }
}

// The letter that a position starts with: f stays f, any other becomes d.
fn unspent(letter: u8) -> u8
    ensures { result ≡ cond (eqb letter free_letter) free_letter deleted_letter }
{
    if letter == entries::FREE {
        return entries::FREE;
    }
    entries::DELETED
}

// Puts the letters that the positions of a part's payload start with.
fn read_letter_part(payload: &Payload, letters: &mut [u8])
    requires { length letters.old ≡ payload_size }
    ensures { LettersRead payload.now letters.new }
{
    for (p, letter) in letters.iter_mut().enumerate() {
        *letter = unspent(payload[p]);
    }
}

// Puts at every position the letter that it starts with.
fn read_letters(image: &[u8], c: usize, letters: &mut Letters)
    requires { c * block_size + block_size ≤ length image.now }
    ensures { EachLetter (λ p l. cond (eqb (letter_in image.now c p) free_letter) free_letter deleted_letter)
        letters.old letters.new }
{
    let g = c * PAGES_IN_BLOCK;
    read_letter_part(look::payload_at(image, g), &mut letters[0..Frame::PAYLOAD]);
    read_letter_part(
        look::payload_at(image, g + 1),
        &mut letters[Frame::PAYLOAD..POSITIONS],
    );
}

// An event gives place x a page and a key, where the place holds no higher sequence.
fn take_place(map: &mut Map, scratch: &mut Scratch, x: usize, sequence: u32, page: u16, key: u16)
    requires { x < places }
    ensures { EachPlace (λ y held. cond (eqb x y) (outranks (record {
      sequence = sequence;
      page = page;
      key =
          key;
    }) held) held) map.old scratch.old map.new scratch.new }
{
    if scratch[x] <= sequence {
        put_place(map, scratch, x, sequence, page, key);
    }
}

// A cut-off takes the places from first up to end.
fn remove_places(map: &mut Map, scratch: &mut Scratch, first: usize, end: usize, sequence: u32)
    requires { (first ≤ end) × (end ≤ places) }
    ensures { EachPlace (λ y held. cond (leb first y && ltb y end) (outranks (record {
      sequence = sequence;
      page
          = none;
      key = none;
    }) held) held) map.old scratch.old map.new scratch.new }
{
    for x in first..end {
        take_place(map, scratch, x, sequence, entries::NONE, entries::NONE);
    }
}

// What the whole page g with header f gives its places.
fn apply_event(map: &mut Map, scratch: &mut Scratch, g: usize, f: Frame, covered: u32)
    requires { (g < none) × (in_range f ≡ true) }
    ensures { EachPlace (λ x. decide_by covered x g (Form.Whole f)) map.old scratch.old map.new
        scratch.new }
{
    if f.number <= covered {
        return;
    }
    if f.kind == Frame::NODE_LETTER {
        let x = record::place_at(f.unit, f.part);
        take_place(map, scratch, x, f.number, g as u16, f.key as u16);
        return;
    }
    if f.kind == Frame::CUT_OFF_LETTER {
        let first = record::place_at(f.unit, f.part);
        let end = plan::start(f.unit) + plan::count(f.unit);
        remove_places(map, scratch, first, end as usize, f.number);
    }
}

// A header of a node above the covered sequence leaves its key deleted.
fn spend_key(letters: &mut Letters, f: Frame, covered: u32)
    requires { in_range f ≡ true }
    ensures { EachLetter (λ p l. cond (eqb f.kind node_letter && ltb covered f.number && eqb f.key p)
        deleted_letter l) letters.old letters.new }
{
    if f.kind != Frame::NODE_LETTER {
        return;
    }
    if covered < f.number {
        let p = f.key as usize;
        letters[p] = entries::DELETED;
    }
}

// Notes the block of page g as one that has an event, where the page's sequence is above the covered one.
fn note(events: &mut Marks, g: usize, sequence: u32, covered: u32)
    requires { g / pages_in_block < most_blocks }
    ensures { events.new ≡ cond (ltb covered sequence) (set events.old (g / pages_in_block) true) events.old }
{
    if covered < sequence {
        events[g / PAGES_IN_BLOCK] = true;
    }
}

// What page g, which begins with N or D, makes of the lists, by its form. A torn page decides no place, but spends its key.
// Stays (5): the size is tested once in a call, and then the call writes the image. A value that holds the test could not
// last over a write, and would be made by one more test behind each.
fn replay_form(
    image: &[u8],
    g: usize,
    covered: u32,
    map: &mut Map,
    letters: &mut Letters,
    scratch: &mut Scratch,
    seen: &mut Seen,
)
    requires { (size_right image.now ≡ true) × (g < pages image.now)
        × (is_event_letter (letter_at image.now g) ≡ true) }
    ensures { Passed image.now covered 1 g
        (pass map.old letters.old scratch.old seen.old)
        (pass map.new letters.new scratch.new seen.new) }
{
    let f = match look::event_form_at(image, g) {
        Form::Whole(f) => {
            apply_event(map, scratch, g, f, covered);
            f
        }
        Form::Torn(f) => f,
        Form::Empty | Form::Spoilt => return,
    };
    spend_key(letters, f, covered);
    note(&mut seen.events, g, f.number, covered);
    seen.highest = seen.highest.max(f.number);
}

// The same; what is no event is mostly told by its first byte.
fn replay_page(
    image: &[u8],
    g: usize,
    covered: u32,
    map: &mut Map,
    letters: &mut Letters,
    scratch: &mut Scratch,
    seen: &mut Seen,
)
    requires { (size_right image.now ≡ true) × (g < pages image.now) }
    ensures { Passed image.now covered 1 g
        (pass map.old letters.old scratch.old seen.old)
        (pass map.new letters.new scratch.new seen.new) }
{
    if !kinds::is_event_letter(look::letter_at(image, g)) {
        return;
    }
    replay_form(image, g, covered, map, letters, scratch, seen);
}

// What the pages of block b make of the lists, in order; an empty block leaves them as they are.
fn replay_block(
    image: &[u8],
    b: usize,
    covered: u32,
    map: &mut Map,
    letters: &mut Letters,
    scratch: &mut Scratch,
    seen: &mut Seen,
)
    requires { (size_right image.now ≡ true) × (b < blocks image.now) }
    ensures { Passed image.now covered pages_in_block (b * pages_in_block)
        (pass map.old letters.old scratch.old seen.old)
        (pass map.new letters.new scratch.new seen.new) }
{
    if look::block_empty(image, b) {
        return;
    }
    let first = b * PAGES_IN_BLOCK;
    for g in first..first + PAGES_IN_BLOCK {
        replay_page(image, g, covered, map, letters, scratch, seen);
    }
}

// What all pages make of the lists, in order.
fn replay_pages(
    image: &[u8],
    covered: u32,
    map: &mut Map,
    letters: &mut Letters,
    scratch: &mut Scratch,
    seen: &mut Seen,
)
    requires { size_right image.now ≡ true }
    ensures { Passed image.now covered (pages image.now) 0
        (pass map.old letters.old scratch.old seen.old)
        (pass map.new letters.new scratch.new seen.new) }
{
    for b in 0..look::blocks(image) {
        replay_block(image, b, covered, map, letters, scratch, seen);
    }
}

// The whole pass, with the commit in block c, which covers covered.
// Stays (5): map, letters and scratch are lent by C. A struct of the three would hold them as `&mut`, and each function would
// have an equation for each field.
pub fn replay(
    image: &[u8],
    c: usize,
    covered: u32,
    map: &mut Map,
    letters: &mut Letters,
    scratch: &mut Scratch,
) -> Seen
    requires { (size_right image.now ≡ true) × ((e : ℕ) × (kind_of image.now c ≡ Kind.Commit e covered)) }
    ensures { Replayed image.now c (pass map.new letters.new scratch.new result) }
{
    read_entries(image, c, map, scratch);
    read_letters(image, c, letters);
    let mut seen = Seen {
        events: [false; MOST_BLOCKS],
        highest: 0,
    };
    replay_pages(image, covered, map, letters, scratch, &mut seen);
    seen
}
