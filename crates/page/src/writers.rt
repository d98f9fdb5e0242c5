// The 256 bytes of a page, written in place up to byte k, and a node's payload read.
ghost use Rattle.std.specs.Prelude.{◌≡◌, ◌++◌, ◌<◌, ◌≤◌, ℕ, List, length, take};
ghost use Rattle.std.specs.Fn.{FnOnceTakesAtMut, FnOnceReturnsAtMut};
ghost use Rattle.base.specs.Part.{splice};
ghost use Rattle.page.specs.Frame.{header_size, payload_size, closing_at, closing};
ghost use Rattle.page.specs.Entry.{parts, commit_payload};
ghost use Rattle.page.specs.Page.{page_bytes, page_like, enciphered, padded, node_page, payload_of, cut_page};

use crate::frames::{Header, Page, Payload};
use crate::keys::Letters;
use crate::plan::Map;
use crate::{Frame, bytes, entries, headers};

// Writes a page's closing.
fn close(page: &mut Page)
    ensures { page.new ≡ take closing_at page.old ++ closing }
{
    bytes::copy(&mut page[Frame::CLOSING_AT..Frame::PAGE], b"\r\n");
}

// Writes a payload and spaces after it over the 224 bytes of dst.
fn put_padded(dst: &mut Payload, payload: &[u8])
    requires { length payload.now ≤ payload_size }
    ensures { dst.new ≡ padded payload.now }
{
    let n = payload.len();
    bytes::copy(&mut dst[0..n], payload);
    bytes::fill(&mut dst[n..Frame::PAYLOAD], b' ');
}

// Writes a page whole: header, payload with spaces after it, closing.
fn write_padded(page: &mut Page, f: Frame, payload: &[u8])
    requires { length payload.now ≤ payload_size }
    ensures { page.new ≡ page_bytes f (padded payload.now) }
{
    let (start, rest) = page.split_first_chunk_mut().unwrap();
    headers::write_header(start, f);
    put_padded(rest.first_chunk_mut().unwrap(), payload);
    close(page);
}

// Leaves of a page what a program that is cut after k bytes leaves.
fn cut(page: &mut Page, k: usize)
    ensures { page.new ≡ cut_page k page.old }
{
    if k < Frame::PAGE {
        bytes::fill(&mut page[k..], Frame::ERASED);
    }
}

// Enciphers a page's payload in place.
fn encipher(page: &mut Page, key: [u8; 16])
    ensures { page.new ≡ splice page.old header_size (enciphered key (payload_of page.old)) }
{
    cipher::apply_stream(
        cipher::expand(key),
        &mut page[Frame::HEADER..Frame::CLOSING_AT],
    );
}

// Writes a page of a frame and a payload, as a program that is cut after k bytes.
pub fn write_page(page: &mut Page, f: Frame, payload: &Payload, k: usize)
    ensures { page.new ≡ cut_page k (page_bytes f payload.now) }
{
    write_padded(page, f, payload);
    cut(page, k);
}

// Writes a page of a header's 30 bytes with another part and of the payload that put writes, as a program that is cut after k
// bytes.
fn write_with<W: FnOnce(&mut Payload)>(
    page: &mut Page,
    header: &Header,
    part: u32,
    k: usize,
    put: W,
)
    requires { (payload : List ℕ) → length payload ≡ payload_size → FnOnceTakesAtMut W.FnOnce put payload }
    ensures { (payload : List ℕ) → length payload ≡ payload_size
        → ((before after : List ℕ) → length before ≡ payload_size → FnOnceReturnsAtMut W.FnOnce put before tt after
        → after ≡ payload)
        → page.new ≡ cut_page k (page_like header.now part payload) }
{
    let (start, rest) = page.split_first_chunk_mut().unwrap();
    headers::write_header_like(start, header, part);
    put(rest.first_chunk_mut::<{ Frame::PAYLOAD }>().unwrap());
    close(page);
    cut(page, k);
}

// Writes a page of a header's 30 bytes with another part and of a payload, as a program that is cut after k bytes.
pub fn write_like(page: &mut Page, header: &Header, part: u32, payload: &Payload, k: usize)
    ensures { page.new ≡ cut_page k (page_like header.now part payload.now) }
{
    write_with(page, header, part, k, |dst| bytes::copy(dst, payload))
}

// Writes the page of a commit's part i, of a header's 30 bytes with that part, as a program that is cut after k bytes.
pub fn write_part(
    page: &mut Page,
    header: &Header,
    i: usize,
    map: &Map,
    letters: &Letters,
    k: usize,
)
    requires { i < parts }
    ensures { page.new ≡ cut_page k (page_like header.now i (commit_payload map.now letters.now i)) }
{
    write_with(
        page,
        header,
        i as u32,
        k,
        |dst| entries::write_commit_payload(dst, map, letters, i),
    )
}

// Writes a node's page: its payload, with spaces after it, is enciphered under its key.
pub fn write_node(
    page: &mut Page,
    sequence: u32,
    file: u32,
    offset: u32,
    position: u32,
    key: [u8; 16],
    payload: &[u8],
    k: usize,
)
    requires { length payload.now ≤ payload_size }
    ensures { page.new
        ≡ cut_page k (node_page sequence file offset position (length payload.now) key (padded payload.now)) }
{
    let second = payload.len() as u32;
    write_padded(
        page,
        Frame::node(sequence, file, offset, position, second),
        payload,
    );
    encipher(page, key);
    cut(page, k);
}

// Reads the first bytes of a node's payload under its key, as many as out has.
pub fn read_payload(page: &Page, key: [u8; 16], out: &mut [u8])
    requires { length out.old ≤ payload_size }
    ensures { out.new ≡ take (length out.old) (enciphered key (payload_of page.now)) }
{
    let n = out.len();
    bytes::copy(out, &page[Frame::HEADER..Frame::HEADER + n]);
    cipher::apply_stream(cipher::expand(key), out);
}
