// Commit: both key blocks and the commit block are renewed, and data blocks without a live page erased.
ghost use Rattle.std.specs.Prelude.{◌≡◌, []};
ghost use Rattle.image.specs.Look.{lowest_empty};
ghost use Rattle.store.specs.Reply.{handed, verdict};
ghost use Rattle.store.specs.Record.{record_of};
ghost use Rattle.store.specs.Outcome.{left, left_whole, standing};
ghost use Rattle.store.specs.Commit.{commit_tests, commit_leaves};
ghost use Rattle.store.specs.Taken.{CommitTaken};

use crate::{Answer, ENOUGH, Error, Numbers, record, replies, stages, tests};
use page::keys::{Letters, Noise};
use page::plan::Map;

// The tests of a commit, in order. Where all are passed they have found the lowest empty block.
fn test_commit(
    image: &[u8],
    map: &[u16],
    letters: &[u8],
    numbers: Numbers,
    noise: &[u8],
) -> Result<usize, Error>
    ensures { result ≡ handed (verdict (commit_tests image.now (record_of map.now letters.now numbers) noise.now))
        (lowest_empty image.now) }
{
    let lent = tests::lent(image, map, letters, numbers)?;
    tests::refuse_noise(noise)?;
    tests::test_renewal(image, lent, 0)
}

// Commits, once the tests are passed. Spare is the lowest empty block.
fn commit_taken(
    image: &mut [u8],
    map: &Map,
    letters: &mut Letters,
    numbers: Numbers,
    noise: &Noise,
    spare: usize,
    n: u64,
    k: usize,
) -> Answer
    requires { CommitTaken image.old (record_of map.now letters.old numbers) noise.now
        × (spare ≡ lowest_empty image.old) }
    ensures { standing result image.new map.now letters.new []
        ≡ commit_leaves (left n k) image.old map.now letters.old numbers noise.now }
{
    record::clean(letters);
    let begun = stages::begin(numbers, n, k);
    stages::answer(stages::renew(image, map, letters, noise, numbers, begun, spare))
}

// A commit of which the power lasts for n steps and the first k bytes of the next.
pub fn commit_cut(
    image: &mut [u8],
    map: &[u16],
    letters: &mut [u8],
    numbers: Numbers,
    noise: &[u8],
    n: u64,
    k: usize,
) -> Answer
    ensures { standing result image.new map.now letters.new []
        ≡ commit_leaves (left n k) image.old map.now letters.old numbers noise.now }
{
    match test_commit(image, map, letters, numbers, noise) {
        Ok(spare) => {
            let map = map.as_array().unwrap();
            let letters = letters.as_mut_array().unwrap();
            let noise = noise.as_array().unwrap();
            commit_taken(image, map, letters, numbers, noise, spare, n, k)
        }
        Err(error) => replies::refused(error, numbers),
    }
}

// Commits the record: keys that are not used are replaced by noise.
pub fn commit(
    image: &mut [u8],
    map: &[u16],
    letters: &mut [u8],
    numbers: Numbers,
    noise: &[u8],
) -> Answer
    ensures { standing result image.new map.now letters.new []
        ≡ commit_leaves left_whole image.old map.now letters.old numbers noise.now }
{
    commit_cut(image, map, letters, numbers, noise, ENOUGH, 0)
}
