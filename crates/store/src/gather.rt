// Gather: the live pages of one data block are copied out of it. Where each copy goes is found before the first is made.
ghost use Rattle.std.specs.Prelude.{◌≡◌, ◌≢◌, true, cond, ◌&&◌, [], ℕ, ◌≤◌, ◌<◌, ◌+◌, ◌*◌, ◌/◌, ◌%◌, eqb, ltb, length, set, count_by, is_some, Some, MatchOption, ⊤};
ghost use Rattle.page.specs.Frame.{page_size};
ghost use Rattle.page.specs.declared.Frame.{Frame as HeaderFrame};
ghost use Rattle.page.specs.Plan.{places};
ghost use Rattle.page.specs.Entry.{none};
ghost use Rattle.page.specs.Header.{last_number};
ghost use Rattle.store.specs.Write.{next_sequence};
ghost use Rattle.image.specs.Size.{pages_in_block, pages, size_right};
ghost use Rattle.image.specs.Look.{form_at};
ghost use Rattle.image.specs.Step.{program};
ghost use Rattle.image.specs.Power.{device, act};
ghost use Rattle.store.specs.Record.{record_of, held};
ghost use Rattle.store.specs.Outcome.{left, left_whole, standing};
ghost use Rattle.store.specs.Gather.{live_pages, copy_of, gather_leaves};
ghost use Rattle.store.specs.Targets.{next_target, targets, PlacesIn, Moved, MovesIn, Tried};
ghost use Rattle.store.specs.Taken.{Ready, GatherTaken};

use crate::stages::Progress;
use crate::{Answer, ENOUGH, Error, Lent, Numbers, find, replies, stages, tests};
use image::look::PAGES_IN_BLOCK;
use image::{Power, look, steps};
use page::headers::LAST_NUMBER;
use page::keys::Letters;
use page::plan::{Map, PLACES};
use page::{Form, entries};

// For each page of a block the place that has it, if it is live.
type Places = [Option<u8>; PAGES_IN_BLOCK];

// For each page of a block its place and the page of its copy, if it is live.
type Moves = [Option<(u8, u16)>; PAGES_IN_BLOCK];

// Notes place x at its page, where that stands in the block.
fn note_place(at: &mut Places, page: u16, block: usize, x: usize)
    requires { x < places }
    ensures { at.new
        ≡ cond (ltb page none && eqb (page / pages_in_block) block) (set at.old (page % pages_in_block) (Some x)) at.old }
{
    if page == entries::NONE {
        return;
    }
    if page as usize / PAGES_IN_BLOCK == block {
        at[page as usize % PAGES_IN_BLOCK] = Some(x as u8);
    }
}

// For each page of a block the lowest place that has it.
fn note_places(map: &Map, block: usize) -> Places
    ensures { PlacesIn map.now block result }
{
    let mut at = [None; PAGES_IN_BLOCK];
    for x in (0..PLACES).rev() {
        note_place(&mut at, map[x], block, x);
    }
    at
}

// How many pages of a block have a place.
fn count_live(at: &Places) -> usize
    ensures { result ≡ count_by is_some at.now }
{
    at.iter().filter(|place| place.is_some()).count()
}

// The page that the next copy out of a block takes: after the page that the last one took, if there was one.
fn next_target(image: &[u8], numbers: Numbers, block: usize, last: Option<usize>) -> Option<usize>
    requires { (size_right image.now ≡ true) × MatchOption last ⊤ (λ g. g < pages image.now) }
    ensures { result ≡ next_target block image.now numbers last }
{
    match last {
        Some(g) => find::page_after(image, numbers, Some(block), g),
        None => find::new_page(image, numbers, Some(block)),
    }
}

// The place of each live page and the page that its copy takes, where there is one for each.
fn find_moves(image: &[u8], numbers: Numbers, block: usize, at: &Places) -> Option<Moves>
    requires { size_right image.now ≡ true }
    ensures { let n = count_by is_some at.now in
        MatchOption result (length (targets block image.now numbers n) ≢ n)
        (λ moves. Moved at.now (targets block image.now numbers n) moves × (length (targets block image.now numbers n) ≡ n)) }
{
    let mut moves = [None; PAGES_IN_BLOCK];
    let mut last = None;
    for (i, place) in at.iter().enumerate() {
        if let Some(x) = *place {
            let to = next_target(image, numbers, block, last)?;
            moves[i] = Some((x, to as u16));
            last = Some(to);
        }
    }
    Some(moves)
}

// The tests of a block to gather, in order, of a record that fits. Where all are passed they have found its moves.
fn test_block(image: &[u8], lent: Lent, block: usize) -> Result<Moves, Error>
    requires { Ready image.now (held lent) }
    ensures { Tried image.now (held lent.entry) block result }
{
    let at = note_places(lent.map, block);
    let n = count_live(&at);
    if n == 0 {
        return Err(Error::NothingToGather);
    }
    if LAST_NUMBER + 1 < lent.numbers.sequence + n as u32 {
        return Err(Error::NumbersSpent);
    }
    find_moves(image, lent.numbers, block, &at).ok_or(Error::NoRoom)
}

// The tests of a gather, in order. Where all are passed they have found its moves.
fn test_gather(
    image: &[u8],
    map: &[u16],
    letters: &[u8],
    numbers: Numbers,
    block: usize,
) -> Result<Moves, Error>
    ensures { Tried image.now (record_of map.now letters.now numbers) block result }
{
    let lent = tests::fitting(image, map, letters, numbers)?;
    test_block(image, lent, block)
}

// Programs page to with the node of page from, under another sequence; its bytes stay as they are stored.
fn copy_page(image: &mut [u8], from: usize, to: usize, sequence: u32, p: Power) -> Power
    requires page_size_in_bounds { (from * page_size + page_size ≤ length image.old) × (to * page_size + page_size ≤ length image.old) }
    requires from_value { (f : HeaderFrame) × (form_at image.old from ≡ Form.Whole f) }
    ensures { device result image.new
        ≡ act (program to (copy_of image.old from sequence)) (device p image.old) }
{
    let Form::Whole(f) = look::form_at(image, from) else {
        return p;
    };
    let mut header = f;
    header.number = sequence;
    let payload = *look::payload_at(image, from);
    steps::program_page(image, to, header, &payload, p)
}

// Moves the node of page from to page to and place x with it.
fn move_page(
    image: &mut [u8],
    map: &mut Map,
    from: usize,
    to: usize,
    x: usize,
    p: Progress,
) -> Progress
    requires page_size_in_bounds { (from * page_size + page_size ≤ length image.old) × (to * page_size + page_size ≤ length image.old) }
    requires from_value { (f : HeaderFrame) × (form_at image.old from ≡ Form.Whole f) }
    requires to_lt_none { (to < none) × (x < places) × (p.numbers.sequence ≤ last_number) }
    ensures { (device result.power image.new
        ≡ act (program to (copy_of image.old from p.numbers.sequence)) (device p.power image.old))
        × (map.new ≡ set map.old x to) × (result.numbers ≡ next_sequence p.numbers) }
{
    let numbers = p.numbers;
    let power = copy_page(image, from, to, numbers.sequence, p.power);
    map[x] = to as u16;
    Progress {
        power: power,
        numbers: numbers.next_sequence(),
    }
}

// Gathers a block, once the tests are passed: its live pages, lowest first, each to the page that was found for it.
fn gather_taken(
    image: &mut [u8],
    map: &mut Map,
    letters: &Letters,
    numbers: Numbers,
    block: usize,
    moves: Moves,
    n: u64,
    k: usize,
) -> Answer
    requires gather_taken { GatherTaken image.old (record_of map.old letters.now numbers) block }
    requires moves_in { MovesIn map.old block (targets block image.old numbers (length (live_pages map.old block))) moves }
    ensures { standing result image.new map.new letters.now []
        ≡ gather_leaves (left n k) image.old map.old letters.now numbers block }
{
    let mut p = stages::begin(numbers, n, k);
    for (i, found) in moves.iter().enumerate() {
        if let Some((x, to)) = *found {
            let from = block * PAGES_IN_BLOCK + i;
            p = move_page(image, map, from, to as usize, x as usize, p);
        }
    }
    stages::answer(p)
}

// A gather of which the power lasts for n steps and the first k bytes of the next.
pub fn gather_cut(
    image: &mut [u8],
    map: &mut [u16],
    letters: &[u8],
    numbers: Numbers,
    block: u32,
    n: u64,
    k: usize,
) -> Answer
    ensures { standing result image.new map.new letters.now []
        ≡ gather_leaves (left n k) image.old map.old letters.now numbers block }
{
    match test_gather(image, map, letters, numbers, block as usize) {
        Ok(moves) => {
            let map = map.as_mut_array().unwrap();
            let letters = letters.as_array().unwrap();
            gather_taken(image, map, letters, numbers, block as usize, moves, n, k)
        }
        Err(error) => replies::refused(error, numbers),
    }
}

// Copies the live pages of a data block out of it.
pub fn gather(
    image: &mut [u8],
    map: &mut [u16],
    letters: &[u8],
    numbers: Numbers,
    block: u32,
) -> Answer
    ensures { standing result image.new map.new letters.now []
        ≡ gather_leaves left_whole image.old map.old letters.now numbers block }
{
    gather_cut(image, map, letters, numbers, block, ENOUGH, 0)
}
