// Block kinds: whole key blocks, whole commit blocks, data blocks.
ghost use Rattle.std.specs.Prelude.{◌≡◌, true, ◌≤◌, ◌<◌, ◌+◌, ◌*◌, ◌-◌, ◌%◌, length};
ghost use Rattle.base.specs.Search.{all_from};
ghost use Rattle.page.specs.Frame.{page_size};
ghost use Rattle.page.specs.declared.Frame.{Frame as HeaderFrame};
ghost use Rattle.page.specs.Header.{commit_frame, in_range, with_part, is_event_letter};
ghost use Rattle.page.specs.Form.{whole_like};
ghost use Rattle.page.specs.Entry.{parts, valid_payload};
ghost use Rattle.page.specs.Page.{payload_of};
ghost use Rattle.image.specs.Size.{block_size, pages_in_block};
ghost use Rattle.image.specs.Look.{page_at, page_empty, form_at};
ghost use Rattle.store.specs.Kind.{page_in, whole_with, key_block_whole, part_whole, is_block_letter, kind_by, kind_of, headed, has_events, is_chosen, is_data};

use crate::{Kind, Numbers};
use image::look;
use image::look::PAGES_IN_BLOCK;
use page::entries::PARTS;
use page::{Form, Frame, entries, forms};

// An image has at most 256 blocks.
pub const MOST_BLOCKS: usize = 256;

// A mark for each block that an image can have.
pub type Marks = [bool; MOST_BLOCKS];

// Whether page i of block b is whole, with the header of page 0, which is whole, but for the part i.
// Stays (5): the definitions take the image and the number of a block, and laws compare its pages before and after a step.
// The contract of a block by itself would say beside each clause which block of which image it is.
fn page_like(image: &[u8], b: usize, i: usize) -> bool
    requires block_size_in_bounds { (b * block_size + block_size ≤ length image.now) × (i < pages_in_block) }
    requires b_value { (f : HeaderFrame)
        × (form_at image.now (page_in b 0) ≡ Form.Whole f) × (in_range (with_part i f) ≡ true) }
    ensures { result ≡ whole_like (form_at image.now (page_in b 0)) i (form_at image.now (page_in b i)) }
{
    forms::is_whole_like(
        look::page_at(image, b * PAGES_IN_BLOCK),
        look::page_at(image, b * PAGES_IN_BLOCK + i),
        i as u32,
    )
}

// Whether block b, whose page 0 is whole with header f, is a whole key block.
fn key_block_whole(image: &[u8], b: usize, f: Frame) -> bool
    requires { (b * block_size + block_size ≤ length image.now) × (form_at image.now (page_in b 0) ≡ Form.Whole f) }
    ensures { result ≡ key_block_whole image.now b f.unit f.number }
{
    let q = f.unit;
    let e = f.number;
    if f != Frame::keys(e, q, 0) {
        return false;
    }
    for page in 1..PAGES_IN_BLOCK {
        if !page_like(image, b, page) {
            return false;
        }
    }
    true
}

// Whether the payload of page g is valid as that of a commit's part i.
fn payload_valid(image: &[u8], g: usize, i: usize) -> bool
    requires { g * page_size + page_size ≤ length image.now }
    ensures { result ≡ valid_payload i (payload_of (page_at image.now g)) }
{
    entries::valid_payload(look::payload_at(image, g), i)
}

// Whether page i of block b, whose page 0 is that of a commit of epoch e that covers s, is a whole part i of it, with a
// valid payload.
fn part_whole(image: &[u8], b: usize, i: usize, e: u32, s: u32) -> bool
    requires { (b * block_size + block_size ≤ length image.now)
        × (i < parts) × (form_at image.now (page_in b 0) ≡ Form.Whole (commit_frame e 0 s)) }
    ensures { result ≡ part_whole image.now b e s i }
{
    if !page_like(image, b, i) {
        return false;
    }
    payload_valid(image, b * PAGES_IN_BLOCK + i, i)
}

// Whether block b, whose page 0 is whole with header f, has the whole parts of a commit.
fn parts_whole(image: &[u8], b: usize, f: Frame) -> bool
    requires { (b * block_size + block_size ≤ length image.now) × (form_at image.now (page_in b 0) ≡ Form.Whole f) }
    ensures { result ≡ all_from (part_whole image.now b f.number f.second) parts 0 }
{
    let e = f.number;
    let s = f.second;
    if f != Frame::commit(e, 0, s) {
        return false;
    }
    if !payload_valid(image, b * PAGES_IN_BLOCK, 0) {
        return false;
    }
    for part in 1..PARTS {
        if !part_whole(image, b, part, e, s) {
            return false;
        }
    }
    true
}

// Whether the pages of block b after a commit's parts are empty.
fn rest_empty(image: &[u8], b: usize) -> bool
    requires { b * block_size + block_size ≤ length image.now }
    ensures { result ≡ all_from (λ i. page_empty image.now (page_in b i)) (pages_in_block - parts) parts }
{
    for i in PARTS..PAGES_IN_BLOCK {
        if !look::page_empty(image, b * PAGES_IN_BLOCK + i) {
            return false;
        }
    }
    true
}

// What the header of block b's page 0, which is whole, makes of it.
fn kind_by(image: &[u8], b: usize, f: Frame) -> Kind
    requires { (b * block_size + block_size ≤ length image.now) × (form_at image.now (page_in b 0) ≡ Form.Whole f) }
    ensures { result ≡ kind_by image.now b f }
{
    if f.kind == Frame::KEYS_LETTER {
        if key_block_whole(image, b, f) {
            return Kind::Keys(f.unit, f.number);
        }
        return Kind::Other;
    }
    if f.kind != Frame::COMMIT_LETTER {
        return Kind::Other;
    }
    if !parts_whole(image, b, f) {
        return Kind::Other;
    }
    if rest_empty(image, b) {
        Kind::Commit(f.number, f.second)
    } else {
        Kind::Other
    }
}

// Whether a kind letter is K or C.
pub fn is_block_letter(kind: u8) -> bool
    ensures { result ≡ is_block_letter kind }
{
    (kind == Frame::KEYS_LETTER) | (kind == Frame::COMMIT_LETTER)
}

// What block b is; outside the image it is nothing of its own. What is none is mostly told by its first byte.
pub fn kind_of(image: &[u8], b: usize) -> Kind
    requires { length image.now % block_size ≡ 0 }
    ensures { result ≡ kind_of image.now b }
{
    if look::blocks(image) <= b {
        return Kind::Other;
    }
    if !is_block_letter(look::letter_at(image, b * PAGES_IN_BLOCK)) {
        return Kind::Other;
    }
    match look::form_at(image, b * PAGES_IN_BLOCK) {
        Form::Empty => Kind::Other,
        Form::Whole(f) => kind_by(image, b, f),
        Form::Torn(_) => Kind::Other,
        Form::Spoilt => Kind::Other,
    }
}

// Whether a kind letter is N or D.
pub fn is_event_letter(kind: u8) -> bool
    ensures { result ≡ is_event_letter kind }
{
    (kind == Frame::NODE_LETTER) | (kind == Frame::CUT_OFF_LETTER)
}

// Whether a page is a whole or torn N or D page.
pub fn is_headed(form: Form) -> bool
    ensures { result ≡ headed form }
{
    match form {
        Form::Empty => false,
        Form::Whole(f) => is_event_letter(f.kind),
        Form::Torn(f) => is_event_letter(f.kind),
        Form::Spoilt => false,
    }
}

// Whether block b is one that the record has chosen.
pub fn is_chosen(numbers: Numbers, b: usize) -> bool
    ensures { result ≡ is_chosen numbers b }
{
    (b == numbers.keys0 as usize) | (b == numbers.keys1 as usize) | (b == numbers.commit as usize)
}

// Whether page g is a whole or torn N or D page. What is none is mostly told by its first byte.
fn event_at(image: &[u8], g: usize) -> bool
    requires { g * page_size + page_size ≤ length image.now }
    ensures { result ≡ headed (form_at image.now g) }
{
    if !is_event_letter(look::letter_at(image, g)) {
        return false;
    }
    is_headed(look::form_at(image, g))
}

// Whether an event stands in block b.
pub fn has_event(image: &[u8], b: usize) -> bool
    requires { b * block_size + block_size ≤ length image.now }
    ensures { result ≡ has_events image.now b }
{
    for i in 0..PAGES_IN_BLOCK {
        if event_at(image, b * PAGES_IN_BLOCK + i) {
            return true;
        }
    }
    false
}

// Whether block b is a data block.
pub fn is_data(image: &[u8], numbers: Numbers, b: usize) -> bool
    requires { b * block_size + block_size ≤ length image.now }
    ensures { result ≡ is_data image.now numbers b }
{
    if is_chosen(numbers, b) {
        return false;
    }
    has_event(image, b)
}
