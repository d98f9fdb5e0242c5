// Mount: the working record of an image; then every block that it needs no more, or that an erase may have left unsettled, is erased.
ghost use Rattle.std.specs.Prelude.{◌≡◌};
ghost use Rattle.image.specs.Size.{blocks};
ghost use Rattle.store.specs.Reply.{handed, verdict};
ghost use Rattle.store.specs.Outcome.{left, left_whole, standing};
ghost use Rattle.store.specs.Mount.{size_tests, block_tests, mount_leaves};
ghost use Rattle.store.specs.Survey.{survey_of, blocks_found, survey_numbers, Surveyed};
ghost use Rattle.store.specs.Taken.{MountChosen};

use crate::replay::Scratch;
use crate::survey::Survey;
use crate::{Answer, ENOUGH, Error, Numbers, rebuild, replies, stages, survey, sweep, tests};
use page::keys::Letters;
use page::plan::{Map, PLACES};

// The blocks that a mount chooses: the commit block, and key blocks 0 and 1.
#[derive(Clone, Copy)]
struct Chosen {
    commit: usize,
    keys0: usize,
    keys1: usize,
}

// The tests of the image's size and of the lists, in order.
fn refuse_sizes(image: &[u8], map: &[u16], letters: &[u8], scratch: &[u32]) -> Result<(), Error>
    ensures { result ≡ verdict (size_tests image.now map.now letters.now scratch.now) }
{
    tests::lists(image, map, letters)?;
    if scratch.len() != PLACES {
        return Err(Error::BufferLength);
    }
    Ok(())
}

// The tests of the blocks that a mount chooses, in order. Where all are passed they hand on the blocks.
fn test_blocks(s: Survey) -> Result<Chosen, Error>
    ensures { result ≡ handed (verdict (block_tests s.commit.at s.keys0.at s.keys1.at)) (blocks_found s) }
{
    let commit = s.commit.at.ok_or(Error::NoCommit)?;
    let keys0 = s.keys0.at.ok_or(Error::NoKeyBlock)?;
    let keys1 = s.keys1.at.ok_or(Error::NoKeyBlock)?;
    Ok(Chosen {
        commit,
        keys0,
        keys1,
    })
}

// The numbers of the record, with the blocks that are chosen and the highest sequence of the pages.
fn numbers_of(s: Survey, chosen: Chosen, highest: u32) -> Numbers
    requires { Surveyed s highest × (chosen ≡ blocks_found s) }
    ensures { result ≡ survey_numbers s highest }
{
    Numbers {
        sequence: s.covered.max(highest) + 1,
        epoch: s.highest + 1,
        keys0: chosen.keys0 as u32,
        keys1: chosen.keys1 as u32,
        commit: chosen.commit as u32,
    }
}

// Mounts, once the blocks are chosen. The buffers are filled before the first erase.
fn mount_chosen(
    image: &mut [u8],
    map: &mut Map,
    letters: &mut Letters,
    scratch: &mut Scratch,
    s: Survey,
    chosen: Chosen,
    n: u64,
    k: usize,
) -> Answer
    requires mount_chosen { MountChosen image.old map.old letters.old scratch.old }
    requires s_value { (s ≡ survey_of image.old (blocks image.old)) × (chosen ≡ blocks_found s) }
    ensures { standing result image.new map.new letters.new scratch.new
        ≡ mount_leaves (left n k) image.old map.old letters.old scratch.old }
{
    let Some(seen) = rebuild::rebuild_record(image, chosen.commit, s.covered, map, letters, scratch)
    else {
        return replies::refused(Error::EntryUnfit, Numbers::none());
    };
    let numbers = numbers_of(s, chosen, seen.highest);
    let power = sweep::erase_swept(image, map, &seen.events, numbers, stages::power_for(n, k));
    replies::taken(power, numbers)
}

// A mount of which the power lasts for n steps and the first k bytes of the next.
pub fn mount_cut(
    image: &mut [u8],
    map: &mut [u16],
    letters: &mut [u8],
    scratch: &mut [u32],
    n: u64,
    k: usize,
) -> Answer
    ensures { standing result image.new map.new letters.new scratch.new
        ≡ mount_leaves (left n k) image.old map.old letters.old scratch.old }
{
    if let Err(error) = refuse_sizes(image, map, letters, scratch) {
        return replies::refused(error, Numbers::none());
    }
    let map = map.as_mut_array().unwrap();
    let letters = letters.as_mut_array().unwrap();
    let scratch = scratch.as_mut_array().unwrap();
    let s = survey::survey_blocks(image);
    match test_blocks(s) {
        Ok(chosen) => mount_chosen(image, map, letters, scratch, s, chosen, n, k),
        Err(error) => {
            rebuild::clear_record(map, letters, scratch);
            replies::refused(error, Numbers::none())
        }
    }
}

// Mounts the image: the record of it, or map, letters and scratch filled where it is refused with 12 to 14.
pub fn mount(image: &mut [u8], map: &mut [u16], letters: &mut [u8], scratch: &mut [u32]) -> Answer
    ensures { standing result image.new map.new letters.new scratch.new
        ≡ mount_leaves left_whole image.old map.old letters.old scratch.old }
{
    mount_cut(image, map, letters, scratch, ENOUGH, 0)
}
