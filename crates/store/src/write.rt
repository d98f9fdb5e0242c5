// Write: a node at a place, with the lowest free key and the page that the searches find.
ghost use Rattle.std.specs.Prelude.{◌≡◌, true, [], length};
ghost use Rattle.page.specs.Page.{padded};
ghost use Rattle.store.specs.Reply.{verdict};
ghost use Rattle.store.specs.Record.{record_of};
ghost use Rattle.store.specs.Outcome.{left, left_whole, standing};
ghost use Rattle.store.specs.Find.{lowest_free, new_page, found_at};
ghost use Rattle.store.specs.Write.{payload_right, write_tests, taking_of, write_leaves};
ghost use Rattle.store.specs.Taken.{WriteTaken};

use crate::{Answer, ENOUGH, Error, Numbers, find, record, replies, stages, tests};
use image::steps;
use page::Frame;
use page::keys::Letters;
use page::plan::Map;

// Whether a payload has 1 to 224 bytes.
fn is_payload(payload: &[u8]) -> bool
    ensures { result ≡ payload_right payload.now }
{
    (1 <= payload.len()) & (payload.len() <= Frame::PAYLOAD)
}

// The tests of a write, in order. Where all are passed they have found the key position and the page that it takes.
fn test_write(
    image: &[u8],
    map: &[u16],
    letters: &[u8],
    numbers: Numbers,
    file: u32,
    offset: u32,
    payload: &[u8],
) -> Result<(usize, usize), Error>
    ensures { result ≡ taking_of (verdict (write_tests image.now (record_of map.now letters.now numbers) file
        offset payload.now)) (found_at (lowest_free letters.now)) (found_at (new_page image.now numbers)) }
{
    let lent = tests::lent(image, map, letters, numbers)?;
    tests::test_node(image, lent, file, offset, is_payload(payload))?;
    tests::refuse_spent(numbers)?;
    let p = find::lowest_free(lent.letters).ok_or(Error::NoFreeKey)?;
    let g = find::new_page(image, numbers, None).ok_or(Error::NoRoom)?;
    Ok((p, g))
}

// Writes with key position p on page g, once the tests are passed.
fn write_taken(
    image: &mut [u8],
    map: &mut Map,
    letters: &mut Letters,
    numbers: Numbers,
    file: u32,
    offset: u32,
    payload: &[u8],
    p: usize,
    g: usize,
    n: u64,
    k: usize,
) -> Answer
    requires write_taken { WriteTaken image.old (record_of map.old letters.old numbers) file offset (length payload.now)
        (padded payload.now) }
    requires payload_value { payload_right payload.now ≡ true }
    requires p_value { (p ≡ found_at (lowest_free letters.old)) × (g ≡ found_at (new_page image.old numbers)) }
    ensures { standing result image.new map.new letters.new []
        ≡ write_leaves (left n k) image.old map.old letters.old numbers file offset payload.now }
{
    let key = record::key_held(image, numbers, p);
    let power = steps::program_node(
        image,
        g,
        numbers.sequence,
        file,
        offset,
        p as u32,
        key,
        payload,
        stages::power_for(n, k),
    );
    record::set_place(map, letters, record::place_at(file, offset), g, p);
    replies::taken(power, numbers.next_sequence())
}

// A write of which the power lasts for n steps and the first k bytes of the next.
pub fn write_cut(
    image: &mut [u8],
    map: &mut [u16],
    letters: &mut [u8],
    numbers: Numbers,
    file: u32,
    offset: u32,
    payload: &[u8],
    n: u64,
    k: usize,
) -> Answer
    ensures { standing result image.new map.new letters.new []
        ≡ write_leaves (left n k) image.old map.old letters.old numbers file offset payload.now }
{
    match test_write(image, map, letters, numbers, file, offset, payload) {
        Ok((p, g)) => {
            let map = map.as_mut_array().unwrap();
            let letters = letters.as_mut_array().unwrap();
            write_taken(
                image, map, letters, numbers, file, offset, payload, p, g, n, k,
            )
        }
        Err(error) => replies::refused(error, numbers),
    }
}

// Writes a payload at a file's offset.
pub fn write(
    image: &mut [u8],
    map: &mut [u16],
    letters: &mut [u8],
    numbers: Numbers,
    file: u32,
    offset: u32,
    payload: &[u8],
) -> Answer
    ensures { standing result image.new map.new letters.new []
        ≡ write_leaves left_whole image.old map.old letters.old numbers file offset payload.now }
{
    write_cut(
        image, map, letters, numbers, file, offset, payload, ENOUGH, 0,
    )
}
