// The stages of commit and wipe: a key block or the commit block replaced by a new copy, and the data blocks without a
// live page erased.
ghost use Rattle.std.specs.Prelude.{◌≡◌, true, false, cond, not, ◌||◌, ℕ, ◌≤◌, ◌<◌, ◌+◌, ◌*◌, ◌/◌, length, get_or, set, replicate, eqb, ltb, Err};
ghost use Rattle.page.specs.Plan.{places};
ghost use Rattle.page.specs.Header.{last_number};
ghost use Rattle.image.specs.Size.{block_size, pages_in_block, most_blocks, blocks as blocks_in, size_right};
ghost use Rattle.image.specs.Power.{device, power_for, run};
ghost use Rattle.store.specs.Kind.{is_chosen, is_data};
ghost use Rattle.store.specs.Record.{map_size};
ghost use Rattle.store.specs.Outcome.{answered};
ghost use Rattle.store.specs.Reply.{Done};
ghost use Rattle.store.specs.declared.Error.TheVariants.{PowerCut};
ghost use Rattle.store.specs.Testing.{run_length};
ghost use Rattle.store.specs.Stages.{is_spare, lowest_spare, at_work, begun, keys_moved, commit_moved, has_live, LiveMarked, unused_erases, renewed, Able};

use crate::kinds::{MOST_BLOCKS, Marks};
use crate::{Answer, Numbers, fit, kinds, replies, sweep};
use image::look::PAGES_IN_BLOCK;
use image::{Power, blocks, look, steps};
use page::keys::{Letters, Noise};
use page::plan::{Map, PLACES};

// A call at work: the power that is left, and the record's numbers so far.
#[derive(Clone, Copy)]
pub struct Progress {
    pub power: Power,
    pub numbers: Numbers,
}

// Power for n steps and k bytes of the next.
pub(crate) fn power_for(n: u64, k: usize) -> Power
    ensures { result ≡ power_for n k }
{
    Power {
        steps: n,
        bytes: k,
        on: true,
    }
}

// A call that begins with power for n steps and k bytes of the next.
pub fn begin(numbers: Numbers, n: u64, k: usize) -> Progress
    ensures { result ≡ begun n k numbers }
{
    Progress {
        power: power_for(n, k),
        numbers: numbers,
    }
}

// The answer of a call that has gone so far.
pub fn answer(p: Progress) -> Answer
    ensures { result ≡ answered (cond p.power.on Done (Err PowerCut)) p.numbers }
{
    replies::taken(p.power, p.numbers)
}

// Whether block b is spare: not chosen now, and chosen when the call began, so erased since, or empty.
fn is_spare(image: &[u8], first: Numbers, numbers: Numbers, b: usize) -> bool
    requires { b * block_size + block_size ≤ length image.now }
    ensures { result ≡ is_spare image.now first numbers b }
{
    if kinds::is_chosen(numbers, b) {
        return false;
    }
    if kinds::is_chosen(first, b) {
        return true;
    }
    look::block_empty(image, b)
}

// The lowest spare block, or the number of blocks where there is none.
// Stays (1): each caller's record has a spare block (`Able`), so that an option would be unwrapped at once in all three.
pub fn lowest_spare(image: &[u8], first: Numbers, numbers: Numbers) -> usize
    ensures { result ≡ lowest_spare image.now first numbers }
{
    let n = look::blocks(image);
    (0..n)
        .find(|b| is_spare(image, first, numbers, *b))
        .unwrap_or(n)
}

// Replaces key block q: a new copy in block b, the lowest spare one, then the old one erased.
fn replace_keys(
    image: &mut [u8],
    letters: &Letters,
    noise: &Noise,
    first: Numbers,
    p: Progress,
    q: u32,
    b: usize,
) -> Progress
    requires { Able image.old first p.numbers × (q < 2) × (b ≡ lowest_spare image.old first p.numbers) }
    ensures { at_work result image.new ≡ keys_moved letters.now noise.now first q (at_work p image.old) }
{
    let numbers = p.numbers;
    let old = numbers.keys_block(q as usize) as usize;
    let copied = blocks::program_key_block(
        image,
        b,
        numbers.epoch,
        q,
        old,
        letters,
        noise,
        p.power,
    );
    let power = steps::erase_block(image, old, copied);
    Progress {
        power: power,
        numbers: numbers.with_keys(q, b as u32),
    }
}

// Replaces the commit block: map and letters in block b, the lowest spare one, then the old one erased.
// Stays (5): first, which every stage takes, could stand in Progress; each of them would then promise beside its equation
// that it stays as it was.
pub fn replace_commit(
    image: &mut [u8],
    map: &Map,
    letters: &Letters,
    first: Numbers,
    p: Progress,
    b: usize,
) -> Progress
    requires { Able image.old first p.numbers
        × (1 ≤ p.numbers.sequence) × (b ≡ lowest_spare image.old first p.numbers) }
    ensures { at_work result image.new ≡ commit_moved map.now letters.now first (at_work p image.old) }
{
    let numbers = p.numbers;
    let copied = blocks::program_commit_block(
        image,
        b,
        numbers.epoch,
        numbers.sequence - 1,
        map,
        letters,
        p.power,
    );
    let power = steps::erase_block(image, numbers.commit as usize, copied);
    Progress {
        power: power,
        numbers: numbers.with_commit(b as u32),
    }
}

// Marks the block of a page; that of none is past the table.
fn mark(marked: &mut Marks, page: u16)
    ensures { marked.new ≡ set marked.old (page / pages_in_block) true }
{
    let b = page as usize / PAGES_IN_BLOCK;
    if MOST_BLOCKS <= b {
        return;
    }
    marked[b] = true;
}

// Marks the blocks of the pages of the places of a run. A vacant run has none.
fn mark_run(map: &Map, marked: &mut Marks, from: usize)
    requires { (from + run_length ≤ places) × LiveMarked map.now marked.old from }
    ensures { LiveMarked map.now marked.new (from + run_length) }
{
    if fit::is_vacant_run(map, from) {
        return;
    }
    for page in &map[from..from + fit::RUN_LENGTH] {
        mark(marked, *page);
    }
}

// Marks the blocks that have a live page.
// Stays (2): as `fit::file_fits`.
pub fn mark_live(map: &Map, marked: &mut Marks)
    requires { marked.old ≡ replicate most_blocks false }
    ensures { (b : ℕ) → b < most_blocks → has_live map.now b ≡ get_or marked.new b false }
{
    for x in (0..PLACES).step_by(fit::RUN_LENGTH) {
        mark_run(map, marked, x);
    }
}

// Marks the blocks that are no data blocks, beside those that are marked.
fn mark_others(image: &[u8], numbers: Numbers, marked: &mut Marks)
    requires { blocks_in image.now ≤ most_blocks }
    ensures { (b : ℕ) → b < blocks_in image.now → get_or marked.new b false
        ≡ (get_or marked.old b false || not (is_data image.now numbers b)) }
{
    for b in 0..look::blocks(image) {
        marked[b] = marked[b] || !kinds::is_data(image, numbers, b);
    }
}

// Erases the data blocks without a live page, in order.
fn erase_unused(image: &mut [u8], map: &Map, numbers: Numbers, p: Power) -> Power
    requires { size_right image.old ≡ true }
    ensures { device result image.new ≡ run (unused_erases map.now numbers image.old) (device p image.old) }
{
    let mut marked = [false; MOST_BLOCKS];
    mark_live(map, &mut marked);
    mark_others(image, numbers, &mut marked);
    sweep::erase_unmarked(image, &marked, p)
}

// The stages of a commit: key block 0, whose copy goes to the lowest spare block, key block 1, the commit block, then
// the data blocks without a live page.
pub fn renew(
    image: &mut [u8],
    map: &Map,
    letters: &Letters,
    noise: &Noise,
    first: Numbers,
    p: Progress,
    spare: usize,
) -> Progress
    requires able { Able image.old first p.numbers × (spare ≡ lowest_spare image.old first p.numbers)
        × (is_chosen first p.numbers.keys0 ≡ true) × (is_chosen first p.numbers.keys1 ≡ true) }
    requires le_sequence { (1 ≤ p.numbers.sequence) × (p.numbers.epoch ≤ last_number) }
    ensures { at_work result image.new ≡ renewed map.now letters.now noise.now first (at_work p image.old) }
{
    let keys0 = replace_keys(image, letters, noise, first, p, 0, spare);
    let second = lowest_spare(image, first, keys0.numbers);
    let keys1 = replace_keys(image, letters, noise, first, keys0, 1, second);
    let third = lowest_spare(image, first, keys1.numbers);
    let last = replace_commit(image, map, letters, first, keys1, third);
    let numbers = last.numbers;
    let power = erase_unused(image, map, numbers, last.power);
    Progress {
        power: power,
        numbers: numbers.next_epoch(),
    }
}
