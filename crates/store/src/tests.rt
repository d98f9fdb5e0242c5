// The tests that several calls begin with, in document 01's order.
ghost use Rattle.std.specs.Prelude.{◌≡◌, true, [], ◌∷◌, ◌++◌, ◌≤◌, leb, drop};
ghost use Rattle.page.specs.Header.{last_number};
ghost use Rattle.image.specs.Size.{size_right};
ghost use Rattle.image.specs.Look.{lowest_empty};
ghost use Rattle.store.specs.Reply.{handed, ◌else◌, verdict};
ghost use Rattle.store.specs.Record.{record_of, held, held_in, lists_in};
ghost use Rattle.store.specs.Format.{lent_tests, noise_tests};
ghost use Rattle.store.specs.Write.{fit_tests, plan_tests, node_tests};
ghost use Rattle.store.specs.Commit.{renewal_tests};
ghost use Rattle.store.specs.declared.Error.TheVariants.{NumbersSpent};

use crate::{Error, Lent, Numbers, fit};
use image::look;
use page::headers::LAST_NUMBER;
use page::keys::{Letters, NOISE_SIZE};
use page::plan;
use page::plan::Map;

// The lists that a call is lent, where the image has a right size and they have their lengths: what every call tests first.
pub(crate) fn lists<'a>(
    image: &[u8],
    map: &'a [u16],
    letters: &'a [u8],
) -> Result<(&'a Map, &'a Letters), Error>
    ensures { lists_in result ≡ handed (verdict (lent_tests image.now map.now letters.now)) (map.now, letters.now) }
{
    if !look::size_right(image) {
        return Err(Error::ImageSize);
    }
    let map = map.as_array().ok_or(Error::BufferLength)?;
    let letters = letters.as_array().ok_or(Error::BufferLength)?;
    Ok((map, letters))
}

// The record that a call is lent, where those tests are passed.
pub fn lent<'a>(
    image: &[u8],
    map: &'a [u16],
    letters: &'a [u8],
    numbers: Numbers,
) -> Result<Lent<'a>, Error>
    ensures { held_in result
        ≡ handed (verdict (lent_tests image.now map.now letters.now)) (record_of map.now letters.now numbers) }
{
    let (map, letters) = lists(image, map, letters)?;
    Ok(Lent {
        map,
        letters,
        numbers,
    })
}

// The test of a record.
pub(crate) fn refuse_unfit(image: &[u8], lent: Lent) -> Result<(), Error>
    requires { size_right image.now ≡ true }
    ensures { result ≡ verdict (fit_tests image.now (held lent.entry)) }
{
    if !fit::fits(image, lent) {
        return Err(Error::RecordUnfit);
    }
    Ok(())
}

// The test of a call that uses one sequence.
pub(crate) fn refuse_spent(numbers: Numbers) -> Result<(), Error>
    ensures { result ≡ verdict ((leb numbers.sequence last_number else NumbersSpent) ∷ []) }
{
    if LAST_NUMBER < numbers.sequence {
        return Err(Error::NumbersSpent);
    }
    Ok(())
}

// The record that a gather is lent, where it fits.
pub fn fitting<'a>(
    image: &[u8],
    map: &'a [u16],
    letters: &'a [u8],
    numbers: Numbers,
) -> Result<Lent<'a>, Error>
    ensures { held_in result
        ≡ handed (verdict (lent_tests image.now map.now letters.now ++ fit_tests image.now
        (record_of map.now letters.now numbers))) (record_of map.now letters.now numbers) }
{
    let lent = lent(image, map, letters, numbers)?;
    refuse_unfit(image, lent)?;
    Ok(lent)
}

// The tests of a file and an offset, in order.
pub fn refuse_plan(file: u32, offset: u32) -> Result<(), Error>
    ensures { result ≡ verdict (plan_tests file offset) }
{
    if plan::LAST_FILE < file {
        return Err(Error::NoSuchFile);
    }
    if plan::count(file) <= offset {
        return Err(Error::OffsetOutside);
    }
    Ok(())
}

// The test of the noise.
pub fn refuse_noise(noise: &[u8]) -> Result<(), Error>
    ensures { result ≡ verdict (noise_tests noise.now) }
{
    if noise.len() != NOISE_SIZE {
        return Err(Error::NoiseLength);
    }
    Ok(())
}

// The tests that commit and wipe end with, in order. The call uses one epoch and so many more. Where all are passed they
// have found the lowest empty block.
pub fn test_renewal(image: &[u8], lent: Lent, more: u32) -> Result<usize, Error>
    requires { (size_right image.now ≡ true) × (more ≤ last_number) }
    ensures { result ≡ handed (verdict (renewal_tests image.now (held lent.entry) more)) (lowest_empty image.now) }
{
    refuse_unfit(image, lent)?;
    if LAST_NUMBER - more < lent.numbers.epoch {
        return Err(Error::NumbersSpent);
    }
    look::lowest_empty(image).ok_or(Error::NoRoom)
}

// The tests of write and read that come after those of what is lent, in order; right says whether payload or output has a
// right length.
pub fn test_node(image: &[u8], lent: Lent, file: u32, offset: u32, right: bool) -> Result<(), Error>
    requires { size_right image.now ≡ true }
    ensures { result ≡ verdict (drop 2 (node_tests image.now (held lent.entry) file offset right)) }
{
    refuse_plan(file, offset)?;
    if !right {
        return Err(Error::PayloadLength);
    }
    refuse_unfit(image, lent)
}
