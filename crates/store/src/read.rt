// Read: the content of a place.
ghost use Rattle.std.specs.Prelude.{◌≡◌, ◌≤◌, ◌<◌, ◌+◌, ◌*◌, length};
ghost use Rattle.page.specs.Frame.{page_size};
ghost use Rattle.page.specs.Header.{node_letter};
ghost use Rattle.page.specs.Page.{deciphered};
ghost use Rattle.page.specs.declared.Frame.{Frame as HeaderFrame};
ghost use Rattle.page.specs.Plan.{places};
ghost use Rattle.page.specs.Entry.{none};
ghost use Rattle.image.specs.Size.{block_size};
ghost use Rattle.image.specs.Look.{page_at, form_at};
ghost use Rattle.store.specs.Reply.{handed, verdict};
ghost use Rattle.store.specs.Record.{record_of, held, held_in, page_of};
ghost use Rattle.store.specs.Outcome.{answered, left_whole, standing};
ghost use Rattle.store.specs.Write.{key_held};
ghost use Rattle.store.specs.Read.{content_of, filled, read_tests, read_reply, reported, read_length, read_leaves};
ghost use Rattle.store.specs.Taken.{Ready};

use crate::{Error, Lent, Numbers, record, tests};
use image::look;
use page::frames::Payload;
use page::plan::PLACES;
use page::{Form, Frame, entries, forms, writers};

// The tests of a read, in order. Where all are passed they hand on the record.
fn test_read<'a>(
    image: &[u8],
    map: &'a [u16],
    letters: &'a [u8],
    numbers: Numbers,
    file: u32,
    offset: u32,
    output: &[u8],
) -> Result<Lent<'a>, Error>
    ensures { held_in result
        ≡ handed (verdict (read_tests image.now (record_of map.now letters.now numbers) file offset output.now))
        (record_of map.now letters.now numbers) }
{
    let lent = tests::lent(image, map, letters, numbers)?;
    let right = output.len() == Frame::PAYLOAD;
    tests::test_node(image, lent, file, offset, right)?;
    if lent.map[record::place_at(file, offset)] == entries::NONE {
        return Err(Error::NothingThere);
    }
    Ok(lent)
}

// Reads the payload of the node on page g under the key of position p, and tells its length.
fn read_node(image: &[u8], numbers: Numbers, g: usize, p: usize, output: &mut Payload) -> usize
    requires page_size_in_bounds { g * page_size + page_size ≤ length image.now }
    requires block_size_in_bounds { (numbers.keys0 * block_size + block_size ≤ length image.now)
        × (numbers.keys1 * block_size + block_size ≤ length image.now) }
    requires g_value { (f : HeaderFrame) × (form_at image.now g ≡ Form.Whole f) × (f.kind ≡ node_letter) }
    ensures { (output.new ≡ filled (deciphered (key_held image.now numbers p) (page_at image.now g)) output.old)
        × (result ≡ length (deciphered (key_held image.now numbers p) (page_at image.now g))) }
{
    let key = record::key_held(image, numbers, p);
    let page = look::page_at(image, g);
    let n = forms::node_length(page);
    writers::read_payload(page, key, &mut output[0..n]);
    n
}

// Reads the content of place x, and tells its length.
fn read_place(image: &[u8], lent: Lent, x: usize, output: &mut Payload) -> usize
    requires ready { Ready image.now (held lent) }
    requires x_lt_places { (x < places) × (page_of lent.map.now x < none) }
    ensures { (output.new ≡ filled (content_of image.now (held lent.entry) x) output.old)
        × (result ≡ length (content_of image.now (held lent.entry) x)) }
{
    read_node(
        image,
        lent.numbers,
        lent.map[x] as usize,
        lent.map[PLACES + x] as usize,
        output,
    )
}

// Reads the content of a file's offset into the first bytes of the output.
pub fn read(
    image: &[u8],
    map: &[u16],
    letters: &[u8],
    numbers: Numbers,
    file: u32,
    offset: u32,
    output: &mut [u8],
) -> Result<usize, Error>
    ensures { (standing (answered (read_reply result) numbers) image.now map.now letters.now output.new
        ≡ read_leaves left_whole image.now map.now letters.now numbers file offset output.old)
        × (reported result ≡ read_length image.now (record_of map.now letters.now numbers) file offset output.old) }
{
    let lent = test_read(image, map, letters, numbers, file, offset, output)?;
    let output = output.as_mut_array().unwrap();
    Ok(read_place(image, lent, record::place_at(file, offset), output))
}
