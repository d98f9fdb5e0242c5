// The working record: the place of a node, the key of a position, and what write and cut-off change.
ghost use Rattle.std.specs.Prelude.{◌≡◌, true, map as each, ℕ, ◌≤◌, ◌<◌, ◌+◌, ◌*◌, length, set};
ghost use Rattle.page.specs.Plan.{file_plan, last_file, places, count_of, start_of};
ghost use Rattle.page.specs.Key.{positions};
ghost use Rattle.page.specs.Entry.{none, used_letter};
ghost use Rattle.image.specs.Size.{block_size};
ghost use Rattle.store.specs.declared.Numbers.{Numbers as RecordNumbers};
ghost use Rattle.store.specs.Record.{record_of, key_of, live};
ghost use Rattle.store.specs.Write.{place_at, key_held, released};
ghost use Rattle.store.specs.CutOff.{removed, any_live};
ghost use Rattle.store.specs.Commit.{clean_letter};
ghost use Rattle.store.specs.Taken.{Planned};

use crate::Numbers;
use image::keys;
use page::keys::Letters;
use page::plan::{Map, PLACES};
use page::{entries, keys as positions, plan};

// The place of a file and an offset below its count.
pub fn place_at(file: u32, offset: u32) -> usize
    requires { Planned file offset }
    ensures { (result ≡ place_at file offset) × (result < places) }
{
    (plan::start(file) + offset) as usize
}

// The place after a file's last.
fn place_after(file: u32) -> usize
    requires { file ≤ last_file }
    ensures { (result ≡ start_of file_plan file + count_of file_plan file) × (result ≤ places) }
{
    (plan::start(file) + plan::count(file)) as usize
}

// The key of position p, from its slot of the chosen key block.
pub fn key_held(image: &[u8], numbers: Numbers, p: usize) -> [u8; 16]
    requires { (numbers.keys0 * block_size + block_size ≤ length image.now)
        × (numbers.keys1 * block_size + block_size ≤ length image.now) }
    ensures { result ≡ key_held image.now numbers p }
{
    keys::key_in_block(
        image,
        numbers.keys_block(positions::block_of(p)) as usize,
        p,
    )
}

// Makes the key of place x deleted, where the place has a node.
// Stays (5): a struct of both lists would hold them as `&mut`, and each method would have to say that these stay the same.
pub fn release(map: &Map, letters: &mut Letters, x: usize)
    requires { (x < places) × (live map.now x ≡ true → key_of map.now x < positions) }
    ensures { letters.new ≡ released map.now letters.old x }
{
    if map[x] == entries::NONE {
        return;
    }
    let p = map[PLACES + x] as usize;
    letters[p] = entries::DELETED;
}

// Puts place x at page g and key position p.
pub fn set_place(map: &mut Map, letters: &mut Letters, x: usize, g: usize, p: usize)
    requires x_lt_places { (x < places) × (live map.old x ≡ true → key_of map.old x < positions) }
    requires g_lt_none { (g < none) × (p < positions) }
    ensures { (map.new ≡ set (set map.old x g) (places + x) p)
        × (letters.new ≡ set (released map.old letters.old x) p used_letter) }
{
    release(map, letters, x);
    map[x] = g as u16;
    map[PLACES + x] = p as u16;
    letters[p] = entries::USED;
}

// Makes place x vacant.
fn empty_place(map: &mut Map, letters: &mut Letters, x: usize)
    requires { (x < places) × (live map.old x ≡ true → key_of map.old x < positions) }
    ensures { (map.new
        ≡ set (set map.old x none) (places + x) none) × (letters.new ≡ released map.old letters.old x) }
{
    release(map, letters, x);
    map[x] = entries::NONE;
    map[PLACES + x] = entries::NONE;
}

// Makes the places of a file vacant from an offset on.
pub fn remove(map: &mut Map, letters: &mut Letters, file: u32, offset: u32)
    requires { Planned file offset × ((x : ℕ) → x < places → live map.old x ≡ true → key_of map.old x < positions) }
    ensures { (n : RecordNumbers)
        → record_of map.new letters.new n ≡ removed (record_of map.old letters.old n) file offset }
{
    for x in place_at(file, offset)..place_after(file) {
        empty_place(map, letters, x);
    }
}

// Whether a place of a file from an offset on has a node.
pub fn any_live(map: &Map, file: u32, offset: u32) -> bool
    requires { Planned file offset }
    ensures { result ≡ any_live map.now file offset }
{
    map[place_at(file, offset)..place_after(file)]
        .iter()
        .any(|page| *page < entries::NONE)
}

// A letter after a commit: a deleted position is free.
fn clean_letter(l: u8) -> u8
    ensures { result ≡ clean_letter l }
{
    if l == entries::DELETED {
        return entries::FREE;
    }
    l
}

// Makes every deleted position free.
pub fn clean(letters: &mut Letters)
    ensures { letters.new ≡ each clean_letter letters.old }
{
    for letter in letters.iter_mut() {
        *letter = clean_letter(*letter);
    }
}
