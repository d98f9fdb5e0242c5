// The searches: the lowest free key position, and the page to take, a block being left out of the search or none.
ghost use Rattle.std.specs.Prelude.{◌≡◌, true, ◌≤◌, ◌<◌, ◌+◌, ◌*◌, ◌-◌, length, None, MatchOption};
ghost use Rattle.base.specs.Search.{first_from, all_from};
ghost use Rattle.image.specs.Size.{block_size, pages_in_block, pages, blocks, size_right};
ghost use Rattle.image.specs.Look.{page_empty};
ghost use Rattle.store.specs.Kind.{page_in};
ghost use Rattle.store.specs.Find.{lowest_free, fresh_page, new_page_but};
ghost use Rattle.store.specs.Targets.{is_left_out, has_open, open_page_from, OpenIn, new_page_from, page_after};

use crate::{Numbers, kinds};
use image::look;
use image::look::PAGES_IN_BLOCK;
use page::entries;
use page::keys::Letters;

// The lowest position whose letter is f.
pub fn lowest_free(letters: &Letters) -> Option<usize>
    ensures { result ≡ lowest_free letters.now }
{
    letters.iter().position(|letter| *letter == entries::FREE)
}

// How many pages of block b stand before those that are empty up to its end.
// Stays (6): the result of `rev().find(..)` did not prove, since the library has no lemma on what a range gives from its
// end.
fn empty_from(image: &[u8], b: usize) -> usize
    requires { b * block_size + block_size ≤ length image.now }
    ensures { (result ≡ first_from
        (λ i. all_from (page_empty image.now) (pages_in_block - i) (page_in b i)) pages_in_block 0) × (result ≤ pages_in_block) }
{
    for i in (0..PAGES_IN_BLOCK).rev() {
        if !look::page_empty(image, b * PAGES_IN_BLOCK + i) {
            return i + 1;
        }
    }
    0
}

// Whether block b has an open page. A block whose last page is taken has none.
fn has_open(image: &[u8], numbers: Numbers, b: usize) -> bool
    requires { b * block_size + block_size ≤ length image.now }
    ensures { result ≡ has_open image.now numbers b }
{
    let last = b * PAGES_IN_BLOCK + (PAGES_IN_BLOCK - 1);
    look::page_empty(image, last) && kinds::is_data(image, numbers, b)
}

// Whether a search leaves block b out.
fn is_left_out(but: Option<usize>, b: usize) -> bool
    ensures { result ≡ is_left_out but b }
{
    but == Some(b)
}

// The first block from one on that has an open page, outside the block that is left out.
fn open_block(image: &[u8], numbers: Numbers, but: Option<usize>, from: usize) -> Option<usize>
    requires { (size_right image.now ≡ true) × (from ≤ blocks image.now) }
    ensures { MatchOption result (open_page_from but image.now numbers from ≡ None)
        (λ b. OpenIn but image.now numbers from b) }
{
    (from..look::blocks(image)).find(|b| !is_left_out(but, *b) && has_open(image, numbers, *b))
}

// The lowest open page outside the block that is left out, block by block from one on.
fn open_page(image: &[u8], numbers: Numbers, but: Option<usize>, from: usize) -> Option<usize>
    requires { (size_right image.now ≡ true) × (from ≤ blocks image.now) }
    ensures { result ≡ open_page_from but image.now numbers from }
{
    let b = open_block(image, numbers, but, from)?;
    Some(b * PAGES_IN_BLOCK + empty_from(image, b))
}

// A fresh block's first page, where another block stays empty.
fn fresh_page(image: &[u8]) -> Option<usize>
    ensures { result ≡ fresh_page image.now }
{
    let lowest = look::lowest_empty(image)?;
    (lowest + 1..look::blocks(image))
        .any(|b| look::block_empty(image, b))
        .then_some(lowest * PAGES_IN_BLOCK)
}

// The page that is taken where none is open below block from.
fn new_page_from(image: &[u8], numbers: Numbers, but: Option<usize>, from: usize) -> Option<usize>
    requires { (size_right image.now ≡ true) × (from ≤ blocks image.now) }
    ensures { result ≡ new_page_from but image.now numbers from }
{
    open_page(image, numbers, but, from).or_else(|| fresh_page(image))
}

// The page that a node or a cut-off takes, outside the block that is left out.
pub fn new_page(image: &[u8], numbers: Numbers, but: Option<usize>) -> Option<usize>
    requires { size_right image.now ≡ true }
    ensures { result ≡ new_page_but but image.now numbers }
{
    new_page_from(image, numbers, but, 0)
}

// The page that is taken after page g: the next of its block, else one of a later block.
pub fn page_after(image: &[u8], numbers: Numbers, but: Option<usize>, g: usize) -> Option<usize>
    requires { (size_right image.now ≡ true) × (g < pages image.now) }
    ensures { result ≡ page_after but image.now numbers g }
{
    if g % PAGES_IN_BLOCK < PAGES_IN_BLOCK - 1 {
        return Some(g + 1);
    }
    new_page_from(image, numbers, but, g / PAGES_IN_BLOCK + 1)
}
