// Format: an empty volume on the image, and an empty record.
ghost use Rattle.std.specs.Prelude.{◌≡◌, true, [], length, replicate};
ghost use Rattle.page.specs.Entry.{none};
ghost use Rattle.image.specs.Size.{size_right};
ghost use Rattle.image.specs.Power.{device, run};
ghost use Rattle.store.specs.Reply.{verdict};
ghost use Rattle.store.specs.Outcome.{left, left_whole, standing};
ghost use Rattle.store.specs.Format.{format_tests, format_numbers, formatted, format_steps, format_leaves};
ghost use Rattle.store.specs.Taken.{FormatTaken};

use crate::{Answer, ENOUGH, Error, Numbers, replies, stages, tests};
use image::{Power, blocks};
use page::keys::{Letters, Noise};
use page::plan::Map;
use page::{bytes, entries};

// The epoch of a new volume, and the blocks of its key blocks and its commit.
const FIRST_EPOCH: u32 = 1;

const KEYS0: usize = 0;

const KEYS1: usize = 1;

const COMMIT: usize = 2;

// The numbers of a new volume.
fn first_numbers() -> Numbers
    ensures { result ≡ format_numbers }
{
    Numbers {
        sequence: 1,
        epoch: FIRST_EPOCH + 1,
        keys0: KEYS0 as u32,
        keys1: KEYS1 as u32,
        commit: COMMIT as u32,
    }
}

// Makes every place vacant.
pub(crate) fn clear_map(map: &mut [u16])
    ensures { map.new ≡ replicate (length map.old) none }
{
    map.fill(entries::NONE);
}

// Erases the image and programs an empty volume. All positions are free, so every key comes from the noise and none
// from the other key block.
fn program_volume(image: &mut [u8], map: &Map, letters: &Letters, noise: &Noise, p: Power) -> Power
    requires { (size_right image.old
        ≡ true) × (map.now ≡ formatted.map) × (letters.now ≡ formatted.letters) }
    ensures { device result image.new ≡ run (format_steps image.old noise.now) (device p image.old) }
{
    let erased = blocks::erase_all(image, p);
    let first = blocks::program_key_block(
        image,
        KEYS0,
        FIRST_EPOCH,
        0,
        KEYS1,
        letters,
        noise,
        erased,
    );
    let second = blocks::program_key_block(
        image,
        KEYS1,
        FIRST_EPOCH,
        1,
        KEYS0,
        letters,
        noise,
        first,
    );
    blocks::program_commit_block(image, COMMIT, FIRST_EPOCH, 0, map, letters, second)
}

// The tests of a format, in order.
fn refuse_format(image: &[u8], map: &[u16], letters: &[u8], noise: &[u8]) -> Result<(), Error>
    ensures { result ≡ verdict (format_tests image.now map.now letters.now noise.now) }
{
    tests::lists(image, map, letters)?;
    tests::refuse_noise(noise)
}

// Formats, once the tests are passed.
fn format_taken(
    image: &mut [u8],
    map: &mut Map,
    letters: &mut Letters,
    noise: &Noise,
    n: u64,
    k: usize,
) -> Answer
    requires { FormatTaken image.old map.old letters.old noise.now }
    ensures { standing result image.new map.new letters.new []
        ≡ format_leaves (left n k) image.old map.old letters.old noise.now }
{
    clear_map(map);
    bytes::fill(letters, entries::FREE);
    let power = program_volume(image, map, letters, noise, stages::power_for(n, k));
    replies::taken(power, first_numbers())
}

// A format of which the power lasts for n steps and the first k bytes of the next.
pub fn format_cut(
    image: &mut [u8],
    map: &mut [u16],
    letters: &mut [u8],
    noise: &[u8],
    n: u64,
    k: usize,
) -> Answer
    ensures { standing result image.new map.new letters.new []
        ≡ format_leaves (left n k) image.old map.old letters.old noise.now }
{
    if let Err(error) = refuse_format(image, map, letters, noise) {
        return replies::refused(error, Numbers::none());
    }
    let map = map.as_mut_array().unwrap();
    let letters = letters.as_mut_array().unwrap();
    let noise = noise.as_array().unwrap();
    format_taken(image, map, letters, noise, n, k)
}

// Formats the image: an empty volume with keys from the noise, and the record of it.
pub fn format(image: &mut [u8], map: &mut [u16], letters: &mut [u8], noise: &[u8]) -> Answer
    ensures { standing result image.new map.new letters.new []
        ≡ format_leaves left_whole image.old map.old letters.old noise.now }
{
    format_cut(image, map, letters, noise, ENOUGH, 0)
}
