// Wipe: a cut-off with purge. A commit without the removed nodes comes first, then a commit.
ghost use Rattle.std.specs.Prelude.{◌≡◌, [], ◌≤◌};
ghost use Rattle.page.specs.Header.{last_number};
ghost use Rattle.image.specs.Look.{lowest_empty, empty_blocks};
ghost use Rattle.image.specs.Power.{power_for};
ghost use Rattle.store.specs.Reply.{handed, verdict};
ghost use Rattle.store.specs.Record.{record_of};
ghost use Rattle.store.specs.Outcome.{left, left_whole, standing};
ghost use Rattle.store.specs.Wipe.{removed_first, wipe_tests, wipe_leaves};
ghost use Rattle.store.specs.Stages.{at_work, after};
ghost use Rattle.store.specs.Taken.{Ready, Planned, WipeTaken};

use crate::stages::Progress;
use crate::{Answer, ENOUGH, Error, Numbers, record, replies, stages, tests};
use page::keys::{Letters, Noise};
use page::plan::Map;

// The tests of a wipe, in order. Where all are passed they have found the lowest empty block.
fn test_wipe(
    image: &[u8],
    map: &[u16],
    letters: &[u8],
    numbers: Numbers,
    noise: &[u8],
    file: u32,
    offset: u32,
) -> Result<usize, Error>
    ensures { result ≡ handed (verdict (wipe_tests image.now (record_of map.now letters.now numbers) noise.now
        file offset)) (lowest_empty image.now) }
{
    let lent = tests::lent(image, map, letters, numbers)?;
    tests::refuse_noise(noise)?;
    tests::refuse_plan(file, offset)?;
    tests::test_renewal(image, lent, 1)
}

// The first stage of a wipe: a commit without the removed nodes, in the lowest empty block. The record is then as the
// commit to come needs it.
fn shorten(
    image: &mut [u8],
    map: &mut Map,
    letters: &mut Letters,
    numbers: Numbers,
    file: u32,
    offset: u32,
    spare: usize,
    n: u64,
    k: usize,
) -> Progress
    requires { Ready image.old (record_of map.old letters.old numbers)
        × Planned file offset × (numbers.epoch ≤ last_number) × (1 ≤ empty_blocks image.old)
        × (spare ≡ lowest_empty image.old) }
    ensures { (at_work result image.new
        ≡ after (power_for n k) image.old
        (removed_first image.old (record_of map.old letters.old numbers) file offset))
        × (record_of map.new letters.new result.numbers
        ≡ (removed_first image.old (record_of map.old letters.old numbers) file offset).after) }
{
    record::remove(map, letters, file, offset);
    let begun = stages::begin(numbers, n, k);
    let shorter = stages::replace_commit(image, map, letters, numbers, begun, spare);
    record::clean(letters);
    let power = shorter.power;
    Progress {
        power: power,
        numbers: shorter.numbers.next_epoch(),
    }
}

// Wipes, once the tests are passed. Spare is the lowest empty block.
fn wipe_taken(
    image: &mut [u8],
    map: &mut Map,
    letters: &mut Letters,
    numbers: Numbers,
    noise: &Noise,
    file: u32,
    offset: u32,
    spare: usize,
    n: u64,
    k: usize,
) -> Answer
    requires { WipeTaken image.old (record_of map.old letters.old numbers) noise.now file offset
        × (spare ≡ lowest_empty image.old) }
    ensures { standing result image.new map.new letters.new []
        ≡ wipe_leaves (left n k) image.old map.old letters.old numbers noise.now file offset }
{
    let shorter = shorten(image, map, letters, numbers, file, offset, spare, n, k);
    let next = stages::lowest_spare(image, numbers, shorter.numbers);
    stages::answer(stages::renew(image, map, letters, noise, numbers, shorter, next))
}

// A wipe of which the power lasts for n steps and the first k bytes of the next.
pub fn wipe_cut(
    image: &mut [u8],
    map: &mut [u16],
    letters: &mut [u8],
    numbers: Numbers,
    noise: &[u8],
    file: u32,
    offset: u32,
    n: u64,
    k: usize,
) -> Answer
    ensures { standing result image.new map.new letters.new []
        ≡ wipe_leaves (left n k) image.old map.old letters.old numbers noise.now file offset }
{
    match test_wipe(image, map, letters, numbers, noise, file, offset) {
        Ok(spare) => {
            let map = map.as_mut_array().unwrap();
            let letters = letters.as_mut_array().unwrap();
            let noise = noise.as_array().unwrap();
            wipe_taken(
                image, map, letters, numbers, noise, file, offset, spare, n, k,
            )
        }
        Err(error) => replies::refused(error, numbers),
    }
}

// Removes the nodes of a file from an offset on, and replaces every key that is not used by noise.
pub fn wipe(
    image: &mut [u8],
    map: &mut [u16],
    letters: &mut [u8],
    numbers: Numbers,
    noise: &[u8],
    file: u32,
    offset: u32,
) -> Answer
    ensures { standing result image.new map.new letters.new []
        ≡ wipe_leaves left_whole image.old map.old letters.old numbers noise.now file offset }
{
    wipe_cut(image, map, letters, numbers, noise, file, offset, ENOUGH, 0)
}
