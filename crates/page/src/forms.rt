// Page forms: empty, whole, torn, spoilt.
ghost use Rattle.std.specs.Prelude.{◌≡◌, true, ◌<◌, ◌≤◌, length, get_or};
ghost use Rattle.page.specs.Frame.{payload_size};
ghost use Rattle.page.specs.declared.Frame.{Frame as HeaderFrame};
ghost use Rattle.page.specs.Header.{node_letter, length_of, node_frame, in_range, second_right, with_part, is_event_letter, kind_at};
ghost use Rattle.page.specs.Column.{spell};
ghost use Rattle.page.specs.Word.{word_bytes};
ghost use Rattle.page.specs.Form.{is_empty, closed, form_by, form_of, second_of, whole_node, whole_like};

use crate::frames::Page;
use crate::{Form, Frame, bytes, columns, headers, words};

// Whether all bytes are FFh. The loop has no other way out, so that it goes over many bytes at once.
fn all_erased(bytes: &[u8]) -> bool
    ensures { result ≡ is_empty bytes.now }
{
    let mut all = true;
    for b in bytes {
        all &= *b == Frame::ERASED;
    }
    all
}

// Whether all bytes are FFh. What is used is mostly told by its first byte.
pub fn is_empty(bytes: &[u8]) -> bool
    ensures { result ≡ is_empty bytes.now }
{
    if bytes.len() == 0 {
        return true;
    }
    if bytes[0] != Frame::ERASED {
        return false;
    }
    all_erased(bytes)
}

// Whether a page's closing is right.
fn is_closed(page: &Page) -> bool
    ensures { result ≡ closed page.now }
{
    words::same::<2>(page, Frame::CLOSING_AT, b"\r\n", 0)
}

// The form of a page with a header: whole with its closing, torn without.
fn headed_form(page: &Page, f: Frame) -> Form
    ensures { result ≡ form_by (Some f) page.now }
{
    if is_closed(page) {
        Form::Whole(f)
    } else {
        Form::Torn(f)
    }
}

// The form of a page.
pub fn form(page: &Page) -> Form
    ensures { result ≡ form_of page.now }
{
    match headers::read_header(bytes::array_at(page, 0)) {
        Some(f) => headed_form(page, f),
        None => {
            if is_empty(page) {
                Form::Empty
            } else {
                Form::Spoilt
            }
        }
    }
}

// The same of a page that begins with the letter of a node or a cut-off, and so is not empty.
// Stays (2): the header of such a page is read by pairs of numbers. Where form did so too, by the letter of the page, a mount
// of a small image full of nodes took a fifth more instructions.
pub fn event_form(page: &Page) -> Form
    requires { is_event_letter (get_or page.now kind_at 0) ≡ true }
    ensures { result ≡ form_of page.now }
{
    match headers::read_event(bytes::array_at(page, 0)) {
        Some(f) => headed_form(page, f),
        None => Form::Spoilt,
    }
}

// Whether a page is a whole node with these fields, of any sequence and second number. The file's columns are given as they
// are spelt, and the columns of some second number, as other nodes have it: the same ones are quickly told.
pub fn is_whole_node(
    page: &Page,
    file: u32,
    text: u32,
    offset: u32,
    position: u32,
    known: u64,
) -> bool
    requires { (in_range (node_frame 1 file offset position 0) ≡ true)
        × (word_bytes 4 text ≡ spell 4 file) × (second_right (word_bytes 8 known) ≡ true) }
    ensures { result ≡ whole_node file offset position (form_of page.now) }
{
    let header = bytes::array_at(page, 0);
    let spelt = headers::is_node_of(header, file, text, offset, position) & is_closed(page);
    if !spelt {
        return false;
    }
    headers::has_second(header, known)
}

// How long the payload of a whole node is.
pub fn node_length(page: &Page) -> usize
    requires { (f : HeaderFrame) × (form_of page.now ≡ Form.Whole f) × (f.kind ≡ node_letter) }
    ensures { (result ≡ length_of (second_of (form_of page.now))) × (result ≤ payload_size) }
{
    let Some(n) = columns::get::<4>(page, Frame::SECOND_LAST_AT) else {
        return Frame::PAYLOAD;
    };
    if n == 0 { Frame::PAYLOAD } else { n as usize }
}

// Whether a page is whole, with the header of the first page, which is whole, but for the part.
pub fn is_whole_like(first: &Page, page: &Page, part: u32) -> bool
    requires part_bound { part < 10_000 }
    requires first_value { (f : HeaderFrame) × (form_of first.now ≡ Form.Whole f) × (in_range (with_part part f) ≡ true) }
    ensures { result ≡ whole_like (form_of first.now) part (form_of page.now) }
{
    let like = headers::is_header_like(bytes::array_at(first, 0), bytes::array_at(page, 0), part);
    like & is_closed(page)
}
