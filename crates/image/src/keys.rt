// The keys of a key block: read from the image, and renewed for the next copy of the block.
ghost use Rattle.std.specs.Prelude.{◌≡◌, cond, ◌≤◌, ◌<◌, ◌+◌, ◌*◌, ◌%◌, length};
ghost use Rattle.page.specs.Frame.{payload_size, page_size};
ghost use Rattle.page.specs.Key.{keys_in_page, keys_in_block, positions, noise_size};
ghost use Rattle.image.specs.Size.{block_size};
ghost use Rattle.image.specs.Look.{block_at};
ghost use Rattle.image.specs.Block.{key_in_block, keys_from, kept_key, renewed_key};

use crate::look;
use page::frames::{Page, Payload};
use page::keys::{KEY_SIZE, KEYS_IN_PAGE, Letters, Noise};
use page::{Frame, bytes, entries, keys};

// The key of position p in the key block at block b.
pub fn key_in_block(image: &[u8], b: usize, p: usize) -> [u8; 16]
    requires { b * block_size + block_size ≤ length image.now }
    ensures { result ≡ key_in_block (block_at image.now b) p }
{
    let page = look::page_at(image, b * look::PAGES_IN_BLOCK + keys::page_of(p));
    keys::key_in_page(page, keys::slot_of(p))
}

// Writes the key over dst where its position is used.
fn keep_if(dst: &mut [u8], key: &[u8], used: bool)
    requires { length dst.old ≡ length key.now }
    ensures { dst.new ≡ cond used key.now dst.old }
{
    if used {
        bytes::copy(dst, key);
    }
}

// Writes the keys of a key page over those in dst where their position is used, the positions from first on.
fn keep_used(dst: &mut Payload, page: &Page, letters: &Letters, first: usize)
    requires { first + keys_in_page ≤ positions }
    ensures { dst.new ≡ keys_from (kept_key page.now letters.now dst.old first) keys_in_page 0 }
{
    for j in 0..KEYS_IN_PAGE {
        let to = KEY_SIZE * j;
        let from = Frame::HEADER + to;
        let used = letters[first + j] == entries::USED;
        keep_if(
            &mut dst[to..to + KEY_SIZE],
            &page[from..from + KEY_SIZE],
            used,
        );
    }
}

// Writes the next keys of page i of a key block, the positions from first on: those of used positions stay, all others
// are noise.
pub(crate) fn renew_keys(
    dst: &mut Payload,
    image: &[u8],
    last: usize,
    i: usize,
    letters: &Letters,
    noise: &Noise,
    first: usize,
)
    requires last_in_bounds { last * block_size + block_size ≤ length image.now }
    requires first_lt_positions { (first < positions) × (first % keys_in_block ≡ keys_in_page * i) }
    ensures { dst.new
        ≡ keys_from (renewed_key (block_at image.now last) letters.now noise.now) keys_in_page first }
{
    let at = KEY_SIZE * first;
    bytes::copy(dst, &noise[at..at + Frame::PAYLOAD]);
    let page = look::page_at(image, last * look::PAGES_IN_BLOCK + i);
    keep_used(dst, page, letters, first);
}
