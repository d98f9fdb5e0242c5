// Whole blocks: all erased, and a key block and a commit block programmed page by page from page 0.
ghost use Rattle.std.specs.Prelude.{◌≡◌, ◌≤◌, ◌<◌, ◌+◌, ◌*◌, length};
ghost use Rattle.page.specs.Frame.{header_size};
ghost use Rattle.page.specs.Key.{keys_in_page, keys_in_block, positions, noise_size};
ghost use Rattle.page.specs.Entry.{map_size};
ghost use Rattle.page.specs.Page.{page_like};
ghost use Rattle.image.specs.Size.{block_size, pages_in_block, blocks};
ghost use Rattle.image.specs.Look.{block_at};
ghost use Rattle.image.specs.Step.{program};
ghost use Rattle.image.specs.Power.{device, act, run};
ghost use Rattle.image.specs.Block.{erases_from, keys_from, renewed_key, key_block_steps, commit_block_steps};

use crate::{Power, keys, look, steps};
use page::frames::Header;
use page::keys::{KEYS_IN_BLOCK, KEYS_IN_PAGE, Letters, Noise};
use page::plan::Map;
use page::{Frame, entries, headers};

// Erases every block, in order.
pub fn erase_all(image: &mut [u8], p: Power) -> Power
    ensures { device result image.new ≡ run (erases_from (blocks image.old) 0) (device p image.old) }
{
    let n = image.len() / look::BLOCK_SIZE;
    let mut q = p;
    for b in 0..n {
        q = steps::erase_block(image, b, q);
    }
    q
}

// Programs page i of block b with the next keys of key block 0 or 1, whose last copy is block last, and a header of that block.
fn program_next_keys(
    image: &mut [u8],
    b: usize,
    header: &Header,
    block: u32,
    i: usize,
    last: usize,
    letters: &Letters,
    noise: &Noise,
    p: Power,
) -> Power
    requires { (b * block_size + block_size ≤ length image.old)
        × (last * block_size + block_size ≤ length image.old) × (block < 2) × (i < pages_in_block) }
    ensures { device result image.new ≡ act (program (b * pages_in_block + i) (page_like header.now i (keys_from
        (renewed_key (block_at image.old last) letters.now noise.now) keys_in_page
        (keys_in_block * block + keys_in_page * i)))) (device p image.old) }
{
    let mut next = [0u8; Frame::PAYLOAD];
    let first = KEYS_IN_BLOCK * block as usize + KEYS_IN_PAGE * i;
    keys::renew_keys(&mut next, image, last, i, letters, noise, first);
    steps::program_like(
        image,
        b * look::PAGES_IN_BLOCK + i,
        header,
        i as u32,
        &next,
        p,
    )
}

// Programs block b with key block 0 or 1: the keys of used positions from its last copy, block last, all others from noise.
pub fn program_key_block(
    image: &mut [u8],
    b: usize,
    epoch: u32,
    block: u32,
    last: usize,
    letters: &Letters,
    noise: &Noise,
    p: Power,
) -> Power
    requires { (b * block_size + block_size ≤ length image.old)
        × (last * block_size + block_size ≤ length image.old) × (block < 2) × (b ≡ last → ⊥) }
    ensures { device result image.new ≡ run (key_block_steps epoch block b
        (renewed_key (block_at image.old last) letters.now noise.now)) (device p image.old) }
{
    let mut header = [0u8; Frame::HEADER];
    headers::write_header(&mut header, Frame::keys(epoch, block, 0));
    let mut q = p;
    for i in 0..look::PAGES_IN_BLOCK {
        q = program_next_keys(image, b, &header, block, i, last, letters, noise, q);
    }
    q
}

// Programs block b with a commit of an epoch and a covered sequence, from map and letters.
pub fn program_commit_block(
    image: &mut [u8],
    b: usize,
    epoch: u32,
    covered: u32,
    map: &Map,
    letters: &Letters,
    p: Power,
) -> Power
    requires { b * block_size + block_size ≤ length image.old }
    ensures { device result image.new
        ≡ run (commit_block_steps epoch covered b map.now letters.now) (device p image.old) }
{
    let mut header = [0u8; Frame::HEADER];
    headers::write_header(&mut header, Frame::commit(epoch, 0, covered));
    let mut q = p;
    for i in 0..entries::PARTS {
        let g = b * look::PAGES_IN_BLOCK + i;
        q = steps::program_part(image, g, &header, i, map, letters, q);
    }
    q
}
