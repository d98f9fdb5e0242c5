// What stands on the image: its size, empty pages and blocks, and the form of a page.
ghost use Rattle.std.specs.Prelude.{◌≡◌, true, ◌≤◌, ◌+◌, ◌*◌, length};
ghost use Rattle.base.specs.Search.{found};
ghost use Rattle.page.specs.Frame.{page_size};
ghost use Rattle.page.specs.Header.{is_event_letter};
ghost use Rattle.page.specs.Page.{payload_of};
ghost use Rattle.image.specs.Size.{block_size, blocks as blocks_in, pages as pages_in, size_right};
ghost use Rattle.image.specs.Look.{page_at, letter_at, form_at, page_empty, block_empty, lowest_empty};

use page::frames::{Page, Payload};
use page::{Form, Frame, forms};

// A block has 4,096 bytes, 16 pages.
pub const BLOCK_SIZE: usize = 4096;

pub const PAGES_IN_BLOCK: usize = 16;

// An image has 8 to 256 blocks.
const FEWEST_BLOCKS: usize = 8;

const MOST_BLOCKS: usize = 256;

// Whether the image is 8 to 256 full blocks.
pub fn size_right(image: &[u8]) -> bool
    ensures { result ≡ size_right image.now }
{
    let n = image.len() / BLOCK_SIZE;
    if image.len() % BLOCK_SIZE != 0 {
        return false;
    }
    if n < FEWEST_BLOCKS {
        return false;
    }
    n <= MOST_BLOCKS
}

// The form of page g.
pub fn form_at(image: &[u8], g: usize) -> Form
    requires { g * page_size + page_size ≤ length image.now }
    ensures { result ≡ form_at image.now g }
{
    forms::form(page_at(image, g))
}

// The same of a page that begins with the letter of a node or a cut-off.
// Stays (2): as in page, whose two functions these are.
pub fn event_form_at(image: &[u8], g: usize) -> Form
    requires { (g * page_size + page_size ≤ length image.now) × (is_event_letter (letter_at image.now g) ≡ true) }
    ensures { result ≡ form_at image.now g }
{
    forms::event_form(page_at(image, g))
}

// The bytes of page g.
pub fn page_at<'a>(image: &'a [u8], g: usize) -> &'a Page
    requires { g * page_size + page_size ≤ length image.now }
    ensures { result.now ≡ page_at image.now g }
{
    let at = g * Frame::PAGE;
    image[at..at + Frame::PAGE]
        .as_array::<{ Frame::PAGE }>()
        .unwrap()
}

// The byte of page g where its kind letter stands.
pub fn letter_at(image: &[u8], g: usize) -> u8
    requires { g * page_size + page_size ≤ length image.now }
    ensures { result ≡ letter_at image.now g }
{
    image[g * Frame::PAGE]
}

// How many pages the image has.
pub fn pages(image: &[u8]) -> usize
    ensures { result ≡ pages_in image.now }
{
    image.len() / Frame::PAGE
}

// How many blocks the image has.
pub fn blocks(image: &[u8]) -> usize
    ensures { result ≡ blocks_in image.now }
{
    image.len() / BLOCK_SIZE
}

// The payload of page g.
pub fn payload_at<'a>(image: &'a [u8], g: usize) -> &'a Payload
    requires { g * page_size + page_size ≤ length image.now }
    ensures { result.now ≡ payload_of (page_at image.now g) }
{
    let at = g * Frame::PAGE + Frame::HEADER;
    image[at..at + Frame::PAYLOAD]
        .as_array::<{ Frame::PAYLOAD }>()
        .unwrap()
}

// Whether page g is empty.
pub fn page_empty(image: &[u8], g: usize) -> bool
    requires { g * page_size + page_size ≤ length image.now }
    ensures { result ≡ page_empty image.now g }
{
    forms::is_empty(page_at(image, g))
}

// Whether block b is empty, page by page.
pub fn block_empty(image: &[u8], b: usize) -> bool
    requires { b * block_size + block_size ≤ length image.now }
    ensures { result ≡ block_empty image.now b }
{
    let first = b * PAGES_IN_BLOCK;
    for g in first..first + PAGES_IN_BLOCK {
        if !page_empty(image, g) {
            return false;
        }
    }
    true
}

// The lowest empty block.
pub fn lowest_empty(image: &[u8]) -> Option<usize>
    ensures { result ≡ found (blocks_in image.now) (lowest_empty image.now) }
{
    for b in 0..blocks(image) {
        if block_empty(image, b) {
            return Some(b);
        }
    }
    None
}
