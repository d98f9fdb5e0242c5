// The two steps of the flash as far as the power goes: a block is erased, a page is programmed.
ghost use Rattle.std.specs.Prelude.{ℕ, List, ◌≡◌, ◌≤◌, ◌<◌, ◌+◌, ◌*◌, length};
ghost use Rattle.page.specs.Frame.{header_size, payload_size, page_size};
ghost use Rattle.page.specs.Key.{positions};
ghost use Rattle.page.specs.Entry.{parts, map_size, commit_payload};
ghost use Rattle.std.specs.Fn.{FnOnceTakesAtMut, FnOnceReturnsAtMut};
ghost use Rattle.page.specs.Page.{cut_page, page_bytes, page_like, padded, node_page, cut_off_page};
ghost use Rattle.image.specs.Size.{block_size};
ghost use Rattle.image.specs.Step.{program, erase};
ghost use Rattle.image.specs.Power.{device, act, reach, less_step};

use crate::{Power, look};
use page::frames::{Header, Page, Payload};
use page::keys::Letters;
use page::plan::Map;
use page::{Frame, bytes, writers};

// How many bytes of the next step the power lasts for: no step has more than a block's.
fn reach_of(p: Power) -> usize
    ensures { result ≡ reach p }
{
    if p.steps == 0 {
        return p.bytes;
    }
    look::BLOCK_SIZE
}

// What is left of the power after a step.
fn after_step(p: Power) -> Power
    ensures { result ≡ less_step p }
{
    if p.steps == 0 {
        return Power { on: false, ..p };
    }
    Power {
        steps: p.steps - 1,
        on: true,
        ..p
    }
}

// Erases block b.
pub fn erase_block(image: &mut [u8], b: usize, p: Power) -> Power
    requires { b * block_size + block_size ≤ length image.old }
    ensures { device result image.new ≡ act (erase b) (device p image.old) }
{
    if !p.on {
        return p;
    }
    let start = b * look::BLOCK_SIZE;
    let n = reach_of(p).min(look::BLOCK_SIZE);
    bytes::fill(&mut image[start..start + n], Frame::ERASED);
    after_step(p)
}

// Programs page g with the bytes that write puts there, as far as the power goes.
fn program_by<W: FnOnce(&mut Page)>(image: &mut [u8], g: usize, p: Power, write: W) -> Power
    requires page_size_in_bounds { g * page_size + page_size ≤ length image.old }
    requires callable { (page : List ℕ) → length page ≡ page_size → FnOnceTakesAtMut W.FnOnce write page }
    ensures { (page : List ℕ) → length page ≡ page_size
        → ((before after : List ℕ) → length before ≡ page_size → FnOnceReturnsAtMut W.FnOnce write before tt after
        → after ≡ cut_page (reach p) page)
        → device result image.new ≡ act (program g page) (device p image.old) }
{
    if !p.on {
        return p;
    }
    let (_, from) = image.split_at_mut(g * Frame::PAGE);
    write(from.first_chunk_mut::<{ Frame::PAGE }>().unwrap());
    after_step(p)
}

// Programs page g with a node: its payload, and spaces after it.
pub fn program_node(
    image: &mut [u8],
    g: usize,
    sequence: u32,
    file: u32,
    offset: u32,
    position: u32,
    key: [u8; 16],
    payload: &[u8],
    p: Power,
) -> Power
    requires { (g * page_size + page_size ≤ length image.old) × (length payload.now ≤ payload_size) }
    ensures { device result image.new
        ≡ act (program g (node_page sequence file offset position (length payload.now) key (padded payload.now)))
        (device p image.old) }
{
    let k = reach_of(p);
    program_by(
        image,
        g,
        p,
        |page| writers::write_node(page, sequence, file, offset, position, key, payload, k),
    )
}

// Programs page g with a header and a payload that stands there as it is: a cut-off's spaces, or bytes enciphered before.
pub fn program_page(image: &mut [u8], g: usize, f: Frame, payload: &Payload, p: Power) -> Power
    requires { g * page_size + page_size ≤ length image.old }
    ensures { device result image.new ≡ act (program g (page_bytes f payload.now)) (device p image.old) }
{
    let k = reach_of(p);
    program_by(image, g, p, |page| writers::write_page(page, f, payload, k))
}

// Programs page g with a header's 30 bytes with another part, and a payload.
pub(crate) fn program_like(
    image: &mut [u8],
    g: usize,
    header: &Header,
    part: u32,
    payload: &Payload,
    p: Power,
) -> Power
    requires { g * page_size + page_size ≤ length image.old }
    ensures { device result image.new
        ≡ act (program g (page_like header.now part payload.now)) (device p image.old) }
{
    let k = reach_of(p);
    program_by(
        image,
        g,
        p,
        |page| writers::write_like(page, header, part, payload, k),
    )
}

// Programs page g with part i of a commit, from a header's 30 bytes, map and letters.
pub(crate) fn program_part(
    image: &mut [u8],
    g: usize,
    header: &Header,
    i: usize,
    map: &Map,
    letters: &Letters,
    p: Power,
) -> Power
    requires { (g * page_size + page_size ≤ length image.old) × (i < parts) }
    ensures { device result image.new ≡ act (program g (page_like header.now i
        (commit_payload map.now letters.now i))) (device p image.old) }
{
    let k = reach_of(p);
    program_by(
        image,
        g,
        p,
        |page| writers::write_part(page, header, i, map, letters, k),
    )
}

// Programs page g with a cut-off.
pub fn program_cut_off(
    image: &mut [u8],
    g: usize,
    sequence: u32,
    file: u32,
    offset: u32,
    p: Power,
) -> Power
    requires { g * page_size + page_size ≤ length image.old }
    ensures { device result image.new ≡ act (program g (cut_off_page sequence file offset)) (device p image.old) }
{
    let spaces = [b' '; Frame::PAYLOAD];
    program_page(image, g, Frame::cut_off(sequence, file, offset), &spaces, p)
}
