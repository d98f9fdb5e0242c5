// Whether a working record fits the image. Each page that the map names is looked at once.
ghost use Rattle.std.specs.Prelude.{◌≡◌, true, not, ◌&&◌, ℕ, ◌≤◌, ◌<◌, ◌+◌, ◌%◌, length, get_or, set, replicate, eqb, leb, ltb};
ghost use Rattle.std.specs.Bool.{beq};
ghost use Rattle.base.specs.Search.{all_from};
ghost use Rattle.page.specs.Column.{spell};
ghost use Rattle.page.specs.Word.{word_bytes};
ghost use Rattle.page.specs.Plan.{file_plan, last_file, places, count_of, start_of};
ghost use Rattle.page.specs.Header.{last_number, within, second_right};
ghost use Rattle.page.specs.Key.{positions};
ghost use Rattle.page.specs.Entry.{none, is_letter, used_letter};
ghost use Rattle.image.specs.Size.{block_size, size_right};
ghost use Rattle.image.specs.Look.{form_at};
ghost use Rattle.store.specs.Kind.{kind_of, keys_epoch, commit_epoch};
ghost use Rattle.store.specs.Record.{held, map_size, vacant_at, node_at, place_fits, named_times, numbers_fit, blocks_fit, fits as record_fits};
ghost use Rattle.store.specs.Testing.{run_length, InFile, places_fit, Tested, Testing};

use crate::{Kind, Lent, Numbers, kinds};
use image::look;
use page::keys::{Letters, POSITIONS};
use page::plan::{Map, PLACES};
use page::{columns, entries, forms, headers, keys, plan};

// One above the last sequence and the last epoch.
const LAST_NEXT: u32 = 100_000_000;

// Vacant places are passed in runs of so many.
pub const RUN_LENGTH: usize = 8;

// Whether n is a next sequence or a next epoch.
fn is_next(n: u32) -> bool
    ensures { result ≡ within 1 (last_number + 1) n }
{
    (1 <= n) & (n <= LAST_NEXT)
}

// Whether both next numbers are in their range.
fn numbers_fit(numbers: Numbers) -> bool
    ensures { result ≡ numbers_fit numbers }
{
    is_next(numbers.sequence) & is_next(numbers.epoch)
}

// Whether block b is a whole key block q.
// Stays (5): that the image is whole blocks is one equation, known of it from a call's first test on, over all its writes. A
// value that holds it could not last over a write.
fn is_keys(image: &[u8], b: u32, q: u32) -> bool
    requires { length image.now % block_size ≡ 0 }
    ensures { result ≡ ltb 0 (keys_epoch q (kind_of image.now b)) }
{
    matches!(kinds::kind_of(image, b as usize), Kind::Keys(unit, _) if unit == q)
}

// Whether block b is a whole commit block.
fn is_commit(image: &[u8], b: u32) -> bool
    requires { length image.now % block_size ≡ 0 }
    ensures { result ≡ ltb 0 (commit_epoch (kind_of image.now b)) }
{
    matches!(kinds::kind_of(image, b as usize), Kind::Commit(_, _))
}

// Whether the record's blocks are whole and of their kind.
fn blocks_fit(image: &[u8], numbers: Numbers) -> bool
    requires { length image.now % block_size ≡ 0 }
    ensures { result ≡ blocks_fit image.now numbers }
{
    if !is_keys(image, numbers.keys0, 0) {
        return false;
    }
    if !is_keys(image, numbers.keys1, 1) {
        return false;
    }
    is_commit(image, numbers.commit)
}

// Columns of a second number that a node may have: those of a page, if it is one of the image and has such a number. The
// nodes beside it often have the same.
fn second_columns(image: &[u8], page: u16) -> u64
    requires { length image.now % block_size ≡ 0 }
    ensures { second_right (word_bytes 8 result) ≡ true }
{
    if look::pages(image) <= page as usize {
        return headers::SPELT_LONGEST;
    }
    headers::second_columns(look::page_at(image, page as usize))
}

// Whether a page is one of the image and a whole N page of this file, offset and key. The file's columns are given as
// they are spelt, and the columns of some second number.
fn node_fits(
    image: &[u8],
    file: u32,
    text: u32,
    offset: u32,
    page: u16,
    key: u16,
    known: u64,
) -> bool
    requires { (length image.now % block_size ≡ 0) × (file ≤ last_file) × (offset < count_of file_plan file)
        × (word_bytes 4 text ≡ spell 4 file) × (second_right (word_bytes 8 known) ≡ true) }
    ensures { result ≡ node_at (start_of file_plan file + offset) key (form_at image.now page) }
{
    if look::pages(image) <= page as usize {
        return false;
    }
    if keys::LAST_POSITION < key as u32 {
        return false;
    }
    forms::is_whole_node(
        look::page_at(image, page as usize),
        file,
        text,
        offset,
        key as u32,
        known,
    )
}

// Whether place x fits: none, or a whole N page of its file, offset and key.
pub fn place_fits(image: &[u8], map: &Map, x: usize) -> bool
    requires { (length image.now % block_size ≡ 0) × (x < places) }
    ensures { result ≡ place_fits image.now map.now x }
{
    let page = map[x];
    let key = map[PLACES + x];
    if (page == entries::NONE) & (key == entries::NONE) {
        return true;
    }
    let file = plan::file_at(x);
    let text = columns::spelt4(file);
    node_fits(
        image,
        file,
        text,
        x as u32 - plan::start(file),
        page,
        key,
        headers::SPELT_LONGEST,
    )
}

// Whether the run of places from x on is vacant.
pub fn is_vacant_run(map: &Map, x: usize) -> bool
    requires { x + run_length ≤ places }
    ensures { result ≡ all_from (vacant_at map.now) run_length x }
{
    entries::all_none(map, x)
        & entries::all_none(map, x + 4)
        & entries::all_none(map, PLACES + x)
        & entries::all_none(map, PLACES + x + 4)
}

// Marks the position of a key in a table; false where it has this mark. A key that is none has no position.
pub fn mark_key(table: &mut [u8; POSITIONS], key: u16, mark: u8) -> bool
    requires { 0 < mark }
    ensures { (result ≡ not (eqb (get_or table.old key 0) mark))
        × (result ≡ true → table.new ≡ set table.old key mark) }
{
    let p = key as usize;
    if POSITIONS <= p {
        return true;
    }
    if table[p] == mark {
        return false;
    }
    table[p] = mark;
    true
}

// The mark of a position that is named.
// Stays (1): `mark_key` marks letters by the same steps, and the definitions count in numbers how often a key is named.
const NAMED: u8 = 1;

// Whether place x of a file fits and its key was not named before; the key is named.
fn pass_place(
    image: &[u8],
    map: &Map,
    named: &mut [u8; POSITIONS],
    file: u32,
    text: u32,
    first: usize,
    x: usize,
    known: u64,
) -> bool
    requires { (length image.now % block_size ≡ 0)
        × InFile file first x (x + 1) × Tested image.now map.now named.old x
        × (word_bytes 4 text ≡ spell 4 file) × (second_right (word_bytes 8 known) ≡ true) }
    ensures { Testing image.now map.now named.new (x + 1) result }
{
    let page = map[x];
    let key = map[PLACES + x];
    if (page == entries::NONE) & (key == entries::NONE) {
        return true;
    }
    if !node_fits(image, file, text, (x - first) as u32, page, key, known) {
        return false;
    }
    mark_key(named, key, NAMED)
}

// Whether the places of a run of a file fit and name no key again; their keys are named.
fn run_fits(
    image: &[u8],
    map: &Map,
    named: &mut [u8; POSITIONS],
    file: u32,
    first: usize,
    from: usize,
) -> bool
    requires { (length image.now % block_size ≡ 0)
        × InFile file first from (from + run_length) × Tested image.now map.now named.old from }
    ensures { Testing image.now map.now named.new (from + run_length) result }
{
    let text = columns::spelt4(file);
    let known = second_columns(image, map[from]);
    for x in from..from + RUN_LENGTH {
        if !pass_place(image, map, named, file, text, first, x, known) {
            return false;
        }
    }
    true
}

// The same, at once where the run is vacant.
fn pass_run(
    image: &[u8],
    map: &Map,
    named: &mut [u8; POSITIONS],
    file: u32,
    first: usize,
    from: usize,
) -> bool
    requires { (length image.now % block_size ≡ 0)
        × InFile file first from (from + run_length) × Tested image.now map.now named.old from }
    ensures { Testing image.now map.now named.new (from + run_length) result }
{
    if is_vacant_run(map, from) {
        return true;
    }
    run_fits(image, map, named, file, first, from)
}

// Whether the places of a file, which are whole runs, fit and name no key again; their keys are named.
// Stays (2): the passes over the runs of all places, here and of a mount and a commit, are four loops of one shape, and a
// closure for the run would write what it captures, of which a proof learns nothing after a call.
fn file_fits(image: &[u8], map: &Map, named: &mut [u8; POSITIONS], file: u32) -> bool
    requires { (length image.now % block_size ≡ 0)
        × (file ≤ last_file) × Tested image.now map.now named.old (start_of file_plan file) }
    ensures { Testing image.now map.now named.new (start_of file_plan file + count_of file_plan file) result }
{
    let first = plan::start(file) as usize;
    let end = first + plan::count(file) as usize;
    for x in (first..end).step_by(RUN_LENGTH) {
        if !pass_run(image, map, named, file, first, x) {
            return false;
        }
    }
    true
}

// Whether every place fits and no key is named twice; where so, named says how often each position is, 0 or 1.
fn places_fit(image: &[u8], map: &Map, named: &mut [u8; POSITIONS]) -> bool
    requires { (length image.now % block_size ≡ 0) × (named.old ≡ replicate positions 0) }
    ensures { (result ≡ places_fit image.now map.now)
        × (result ≡ true → (p : ℕ) → p < positions → named_times map.now p ≡ get_or named.new p 0) }
{
    for file in 0..=plan::LAST_FILE {
        if !file_fits(image, map, named, file) {
            return false;
        }
    }
    true
}

// Whether l is a letter, and u exactly if its position is named.
fn letter_fits(l: u8, named: u8) -> bool
    ensures { result ≡ is_letter l && beq (eqb l used_letter) (leb 1 named) }
{
    entries::is_letter(l) & ((l == entries::USED) == (1 <= named))
}

// Whether every letter is one, and u stands at exactly the positions that are named. The fold goes on to the end, so that
// it goes over many letters at once.
fn letters_fit(letters: &Letters, named: &[u8; POSITIONS]) -> bool
    ensures { result ≡ all_from (λ p. is_letter (get_or letters.now p 0) && beq
        (eqb (get_or letters.now p 0) used_letter) (leb 1 (get_or named.now p 0))) positions 0 }
{
    letters.iter().zip(named).fold(
        true,
        |all, (letter, times)| all & letter_fits(*letter, *times),
    )
}

// Whether the record fits.
pub fn fits(image: &[u8], lent: Lent) -> bool
    requires { size_right image.now ≡ true }
    ensures { result ≡ record_fits image.now (held lent.entry) }
{
    let Lent {
        map,
        letters,
        numbers,
    } = lent;
    if !numbers_fit(numbers) {
        return false;
    }
    if !blocks_fit(image, numbers) {
        return false;
    }
    let mut named = [0u8; POSITIONS];
    if !places_fit(image, map, &mut named) {
        return false;
    }
    letters_fit(letters, &named)
}
