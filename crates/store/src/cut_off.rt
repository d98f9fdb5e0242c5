// Cut-off: the nodes of a file from an offset on are removed by a page that says so.
ghost use Rattle.std.specs.Prelude.{◌≡◌, []};
ghost use Rattle.store.specs.Reply.{handed, verdict};
ghost use Rattle.store.specs.Record.{record_of};
ghost use Rattle.store.specs.Outcome.{left, left_whole, standing};
ghost use Rattle.store.specs.Find.{new_page, found_at};
ghost use Rattle.store.specs.CutOff.{cut_off_tests, cut_off_leaves};
ghost use Rattle.store.specs.Taken.{CutOffTaken};

use crate::{Answer, ENOUGH, Error, Numbers, find, record, replies, stages, tests};
use image::steps;
use page::keys::Letters;
use page::plan::Map;

// The tests of a cut-off, in order. Where all are passed they have found the page that it takes.
fn test_cut_off(
    image: &[u8],
    map: &[u16],
    letters: &[u8],
    numbers: Numbers,
    file: u32,
    offset: u32,
) -> Result<usize, Error>
    ensures { result ≡ handed (verdict (cut_off_tests image.now (record_of map.now letters.now numbers) file offset))
        (found_at (new_page image.now numbers)) }
{
    let lent = tests::lent(image, map, letters, numbers)?;
    tests::refuse_plan(file, offset)?;
    tests::refuse_unfit(image, lent)?;
    if !record::any_live(lent.map, file, offset) {
        return Err(Error::NothingThere);
    }
    tests::refuse_spent(numbers)?;
    find::new_page(image, numbers, None).ok_or(Error::NoRoom)
}

// Cuts off with page g, once the tests are passed.
fn cut_off_taken(
    image: &mut [u8],
    map: &mut Map,
    letters: &mut Letters,
    numbers: Numbers,
    file: u32,
    offset: u32,
    g: usize,
    n: u64,
    k: usize,
) -> Answer
    requires { CutOffTaken image.old (record_of map.old letters.old numbers) file offset
        × (g ≡ found_at (new_page image.old numbers)) }
    ensures { standing result image.new map.new letters.new []
        ≡ cut_off_leaves (left n k) image.old map.old letters.old numbers file offset }
{
    let power = steps::program_cut_off(
        image,
        g,
        numbers.sequence,
        file,
        offset,
        stages::power_for(n, k),
    );
    record::remove(map, letters, file, offset);
    replies::taken(power, numbers.next_sequence())
}

// A cut-off of which the power lasts for n steps and the first k bytes of the next.
pub fn cut_off_cut(
    image: &mut [u8],
    map: &mut [u16],
    letters: &mut [u8],
    numbers: Numbers,
    file: u32,
    offset: u32,
    n: u64,
    k: usize,
) -> Answer
    ensures { standing result image.new map.new letters.new []
        ≡ cut_off_leaves (left n k) image.old map.old letters.old numbers file offset }
{
    match test_cut_off(image, map, letters, numbers, file, offset) {
        Ok(g) => {
            let map = map.as_mut_array().unwrap();
            let letters = letters.as_mut_array().unwrap();
            cut_off_taken(image, map, letters, numbers, file, offset, g, n, k)
        }
        Err(error) => replies::refused(error, numbers),
    }
}

// Removes the nodes of a file from an offset on.
pub fn cut_off(
    image: &mut [u8],
    map: &mut [u16],
    letters: &mut [u8],
    numbers: Numbers,
    file: u32,
    offset: u32,
) -> Answer
    ensures { standing result image.new map.new letters.new []
        ≡ cut_off_leaves left_whole image.old map.old letters.old numbers file offset }
{
    cut_off_cut(image, map, letters, numbers, file, offset, ENOUGH, 0)
}
