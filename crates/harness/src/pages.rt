// C entry points into the crate `page`.
ghost use Rattle.std.specs.Prelude.{◌≡◌, cond, ltb, get_or, Some, None};
ghost use Rattle.harness.specs.Answer.{answer};
ghost use Rattle.harness.specs.Page.{fields_in_frame, fields_of, frame_of, byte_range, form_answer, header_answer, entry_answer, write_entry_answer, cut_off_answer, commit_page_answer, commit_valid_reply};

use crate::{DONE, REFUSED};
use page::entries::ENTRY_SIZE;
use page::keys::POSITIONS;
use page::plan::MAP_SIZE;
use page::{Entry, Form, Frame, entries, forms, headers, writers};

// The fields of a header: kind, number, unit, part, key, second.
const FIELDS_IN_FRAME: usize = 6;

// An entry names two numbers.
const FIELDS_IN_ENTRY: usize = 2;

// A commit has 10 parts.
const PARTS: u32 = entries::PARTS as u32;

// The replies of a page's form.
// Stays (1): C gets these numbers, and those below.
const EMPTY: u32 = 0;

const WHOLE: u32 = 1;

const TORN: u32 = 2;

const SPOILT: u32 = 3;

// The reply where the fields are those of no header.
const OUT_OF_RANGE: u32 = 1;

// The replies where 8 bytes name no page and key.
const VACANT: u32 = 1;

const MISSPELT: u32 = 2;

// Sets six numbers to the fields of a header.
fn put_fields(dst: &mut [u32; FIELDS_IN_FRAME], f: Frame)
    ensures { dst.new ≡ fields_of f }
{
    *dst = [f.kind as u32, f.number, f.unit, f.part, f.key, f.second];
}

// The header of six fields, where the first is a byte.
fn frame_of(fields: &[u32; FIELDS_IN_FRAME]) -> Option<Frame>
    ensures { result ≡ cond (ltb (get_or fields.now 0 0) byte_range) (Some (frame_of fields.now)) None }
{
    let kind = u8::try_from(fields[0]).ok()?;
    Some(Frame {
        kind,
        number: fields[1],
        unit: fields[2],
        part: fields[3],
        key: fields[4],
        second: fields[5],
    })
}

// The form of a page of 256 bytes: 0 empty, 1 whole, 2 torn, 3 spoilt. The fields of a whole or torn page's header go
// into six numbers.
#[unsafe(no_mangle)]
#[tactic(auto, unfolding(crate::specs::Page::form_answer))]
pub extern "C" fn harness_form(page: &[u8], fields: &mut [u32]) -> u32
    ensures { answer result fields.new ≡ form_answer page.now fields.old }
{
    let Some(page) = page.as_array::<{ Frame::PAGE }>() else {
        return REFUSED;
    };
    let Some(fields) = fields.as_mut_array::<FIELDS_IN_FRAME>() else {
        return REFUSED;
    };
    match forms::form(page) {
        Form::Empty => EMPTY,
        Form::Whole(f) => {
            put_fields(fields, f);
            WHOLE
        }
        Form::Torn(f) => {
            put_fields(fields, f);
            TORN
        }
        Form::Spoilt => SPOILT,
    }
}

// Writes the 30 bytes of the header of six fields. The reply is 1 where a field is out of its range.
#[unsafe(no_mangle)]
#[tactic(auto, unfolding(crate::specs::Page::header_answer))]
pub extern "C" fn harness_header(fields: &[u32], header: &mut [u8]) -> u32
    ensures { answer result header.new ≡ header_answer fields.now header.old }
{
    let Some(fields) = fields.as_array::<FIELDS_IN_FRAME>() else {
        return REFUSED;
    };
    let Some(header) = header.as_mut_array::<{ Frame::HEADER }>() else {
        return REFUSED;
    };
    let Some(f) = frame_of(fields) else {
        return OUT_OF_RANGE;
    };
    if !headers::in_range(f) {
        return OUT_OF_RANGE;
    }
    headers::write_header(header, f);
    DONE
}

// The entry that 8 bytes are: 0 with page and key, which go into two numbers; 1 vacant, 2 misspelt.
#[unsafe(no_mangle)]
#[tactic(auto, unfolding(crate::specs::Page::entry_answer))]
pub extern "C" fn harness_entry(entry: &[u8], fields: &mut [u32]) -> u32
    ensures { answer result fields.new ≡ entry_answer entry.now fields.old }
{
    let Some(entry) = entry.as_array::<ENTRY_SIZE>() else {
        return REFUSED;
    };
    let Some(fields) = fields.as_mut_array::<FIELDS_IN_ENTRY>() else {
        return REFUSED;
    };
    match entries::read_entry(entry) {
        Entry::At(page, key) => {
            *fields = [page, key];
            DONE
        }
        Entry::Vacant => VACANT,
        Entry::Misspelt => MISSPELT,
    }
}

// Writes the 8 bytes of the entry of a page and a key, as a map has them.
#[unsafe(no_mangle)]
#[tactic(auto, unfolding(crate::specs::Page::write_entry_answer))]
pub extern "C" fn harness_write_entry(page: u32, key: u32, entry: &mut [u8]) -> u32
    ensures { answer result entry.new ≡ write_entry_answer page key entry.old }
{
    let Ok(page) = u16::try_from(page) else {
        return REFUSED;
    };
    let Ok(key) = u16::try_from(key) else {
        return REFUSED;
    };
    let Some(entry) = entry.as_mut_array::<ENTRY_SIZE>() else {
        return REFUSED;
    };
    entries::write_entry(entry, page, key);
    DONE
}

// Writes the page of a cut-off up to byte k.
#[unsafe(no_mangle)]
#[tactic(auto, unfolding(crate::specs::Page::cut_off_answer))]
pub extern "C" fn harness_cut_off(
    page: &mut [u8],
    sequence: u32,
    file: u32,
    offset: u32,
    k: usize,
) -> u32
    ensures { answer result page.new ≡ cut_off_answer page.old sequence file offset k }
{
    let Some(page) = page.as_mut_array::<{ Frame::PAGE }>() else {
        return REFUSED;
    };
    let spaces = [b' '; Frame::PAYLOAD];
    writers::write_page(page, Frame::cut_off(sequence, file, offset), &spaces, k);
    DONE
}

// Writes a part of a commit up to byte k, from a map of 448 numbers and 448 letters.
#[unsafe(no_mangle)]
#[tactic(auto, unfolding(crate::specs::Page::commit_page_answer))]
pub extern "C" fn harness_commit_page(
    page: &mut [u8],
    epoch: u32,
    part: u32,
    covered: u32,
    map: &[u16],
    letters: &[u8],
    k: usize,
) -> u32
    ensures { answer result page.new
        ≡ commit_page_answer page.old epoch part covered map.now letters.now k }
{
    let Some(page) = page.as_mut_array::<{ Frame::PAGE }>() else {
        return REFUSED;
    };
    if PARTS <= part {
        return REFUSED;
    }
    let Some(map) = map.as_array::<MAP_SIZE>() else {
        return REFUSED;
    };
    let Some(letters) = letters.as_array::<POSITIONS>() else {
        return REFUSED;
    };
    let mut payload = [0u8; Frame::PAYLOAD];
    entries::write_commit_payload(&mut payload, map, letters, part as usize);
    writers::write_page(page, Frame::commit(epoch, part, covered), &payload, k);
    DONE
}

// Whether 224 bytes are valid as the payload of a part of a commit: 1 or 0.
#[unsafe(no_mangle)]
#[tactic(auto, unfolding(crate::specs::Page::commit_valid_reply))]
pub extern "C" fn harness_commit_valid(payload: &[u8], part: u32) -> u32
    ensures { result ≡ commit_valid_reply payload.now part }
{
    let Some(payload) = payload.as_array::<{ Frame::PAYLOAD }>() else {
        return REFUSED;
    };
    if PARTS <= part {
        return REFUSED;
    }
    entries::valid_payload(payload, part as usize) as u32
}
