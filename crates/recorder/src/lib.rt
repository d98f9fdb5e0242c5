// The store for C: each call over numbers and lent slices, with its reply as a number.
#![tactic(auto)]

pub mod bus;

ghost use Rattle.std.specs.Prelude.{◌≡◌, [], ◌∷◌};
ghost use Rattle.store.specs.Reply.{number_of};
ghost use Rattle.store.specs.Outcome.{left, left_whole};
ghost use Rattle.store.specs.Format.{format_leaves};
ghost use Rattle.store.specs.Record.{record_of};
ghost use Rattle.store.specs.Read.{read_length, read_leaves};
ghost use Rattle.store.specs.Mount.{mount_leaves};
ghost use Rattle.store.specs.CutOff.{cut_off_leaves};
ghost use Rattle.store.specs.Commit.{commit_leaves};
ghost use Rattle.store.specs.Wipe.{wipe_leaves};
ghost use Rattle.store.specs.Gather.{gather_leaves};
ghost use Rattle.store.specs.Write.{write_leaves};
ghost use Rattle.recorder.specs.Face.{numbers_of, five_of, faced, face};

use store::{Answer, Numbers, commit, cut_off, format, gather, mount, read, replies, wipe, write};

// The record's numbers, from an array: next sequence, next epoch, key block 0, key block 1, commit block.
fn numbers_of(five: &[u32; 5]) -> Numbers
    ensures { result ≡ numbers_of five.now }
{
    Numbers {
        sequence: five[0],
        epoch: five[1],
        keys0: five[2],
        keys1: five[3],
        commit: five[4],
    }
}

// What a caller gets of an answer: the record's numbers in its array, and the reply's number.
fn hand_over(answer: Answer, five: &mut [u32; 5]) -> u32
    ensures { (result ≡ number_of answer.reply) × (five.new ≡ five_of answer.numbers) }
{
    let n = answer.numbers;
    *five = [n.sequence, n.epoch, n.keys0, n.keys1, n.commit];
    replies::number(answer.reply)
}

// Formats the image with noise and makes the record of it. Where it is refused the numbers become 0.
#[unsafe(no_mangle)]
pub extern "C" fn johvimaru_format(
    image: &mut [u8],
    map: &mut [u16],
    letters: &mut [u8],
    five: &mut [u32; 5],
    noise: &[u8],
) -> u32
    ensures { faced result image.new map.new letters.new five.new []
        ≡ face (format_leaves left_whole image.old map.old letters.old noise.now) }
{
    let answer = format::format(image, map, letters, noise);
    hand_over(answer, five)
}

// A format of which the power lasts for n steps and the first k bytes of the next.
#[unsafe(no_mangle)]
pub extern "C" fn johvimaru_format_cut(
    image: &mut [u8],
    map: &mut [u16],
    letters: &mut [u8],
    five: &mut [u32; 5],
    noise: &[u8],
    n: u64,
    k: usize,
) -> u32
    ensures { faced result image.new map.new letters.new five.new []
        ≡ face (format_leaves (left n k) image.old map.old letters.old noise.now) }
{
    let answer = format::format_cut(image, map, letters, noise, n, k);
    hand_over(answer, five)
}

// Writes a payload at a file's offset.
#[unsafe(no_mangle)]
pub extern "C" fn johvimaru_write(
    image: &mut [u8],
    map: &mut [u16],
    letters: &mut [u8],
    five: &mut [u32; 5],
    file: u32,
    offset: u32,
    payload: &[u8],
) -> u32
    ensures { faced result image.new map.new letters.new five.new [] ≡ face (write_leaves left_whole image.old
        map.old letters.old (numbers_of five.old) file offset payload.now) }
{
    let before = numbers_of(five);
    let answer = write::write(image, map, letters, before, file, offset, payload);
    hand_over(answer, five)
}

// A write of which the power lasts for n steps and the first k bytes of the next.
#[unsafe(no_mangle)]
pub extern "C" fn johvimaru_write_cut(
    image: &mut [u8],
    map: &mut [u16],
    letters: &mut [u8],
    five: &mut [u32; 5],
    file: u32,
    offset: u32,
    payload: &[u8],
    n: u64,
    k: usize,
) -> u32
    ensures { faced result image.new map.new letters.new five.new [] ≡ face (write_leaves (left n k)
        image.old map.old letters.old (numbers_of five.old) file offset payload.now) }
{
    let before = numbers_of(five);
    let answer = write::write_cut(image, map, letters, before, file, offset, payload, n, k);
    hand_over(answer, five)
}

// Reads the payload at a file's offset into the first bytes of the output, and tells its length, 0 where it is refused.
#[unsafe(no_mangle)]
pub extern "C" fn johvimaru_read(
    image: &[u8],
    map: &[u16],
    letters: &[u8],
    five: &[u32; 5],
    file: u32,
    offset: u32,
    output: &mut [u8],
    length: &mut [usize; 1],
) -> u32
    ensures { (faced result image.now map.now letters.now five.now output.new ≡ face (read_leaves left_whole
        image.now map.now letters.now (numbers_of five.now) file offset output.old))
        × (length.new ≡ read_length image.now (record_of map.now letters.now (numbers_of five.now)) file offset
        output.old ∷ []) }
{
    let before = numbers_of(five);
    match read::read(image, map, letters, before, file, offset, output) {
        Ok(n) => {
            *length = [n];
            0
        }
        Err(error) => {
            *length = [0];
            error.number()
        }
    }
}

// Removes the nodes of a file from an offset on.
#[unsafe(no_mangle)]
pub extern "C" fn johvimaru_cut_off(
    image: &mut [u8],
    map: &mut [u16],
    letters: &mut [u8],
    five: &mut [u32; 5],
    file: u32,
    offset: u32,
) -> u32
    ensures { faced result image.new map.new letters.new five.new []
        ≡ face (cut_off_leaves left_whole image.old map.old letters.old (numbers_of five.old) file offset) }
{
    let before = numbers_of(five);
    let answer = cut_off::cut_off(image, map, letters, before, file, offset);
    hand_over(answer, five)
}

// A cut-off of which the power lasts for n steps and the first k bytes of the next.
#[unsafe(no_mangle)]
pub extern "C" fn johvimaru_cut_off_cut(
    image: &mut [u8],
    map: &mut [u16],
    letters: &mut [u8],
    five: &mut [u32; 5],
    file: u32,
    offset: u32,
    n: u64,
    k: usize,
) -> u32
    ensures { faced result image.new map.new letters.new five.new []
        ≡ face (cut_off_leaves (left n k) image.old map.old letters.old (numbers_of five.old) file offset) }
{
    let before = numbers_of(five);
    let answer = cut_off::cut_off_cut(image, map, letters, before, file, offset, n, k);
    hand_over(answer, five)
}

// Mounts the image: makes the record that its pages say, and erases what a power failure left over. Where it is refused the
// numbers become 0.
#[unsafe(no_mangle)]
pub extern "C" fn johvimaru_mount(
    image: &mut [u8],
    map: &mut [u16],
    letters: &mut [u8],
    five: &mut [u32; 5],
    scratch: &mut [u32],
) -> u32
    ensures { faced result image.new map.new letters.new five.new scratch.new
        ≡ face (mount_leaves left_whole image.old map.old letters.old scratch.old) }
{
    let answer = mount::mount(image, map, letters, scratch);
    hand_over(answer, five)
}

// A mount of which the power lasts for n steps and the first k bytes of the next.
#[unsafe(no_mangle)]
pub extern "C" fn johvimaru_mount_cut(
    image: &mut [u8],
    map: &mut [u16],
    letters: &mut [u8],
    five: &mut [u32; 5],
    scratch: &mut [u32],
    n: u64,
    k: usize,
) -> u32
    ensures { faced result image.new map.new letters.new five.new scratch.new
        ≡ face (mount_leaves (left n k) image.old map.old letters.old scratch.old) }
{
    let answer = mount::mount_cut(image, map, letters, scratch, n, k);
    hand_over(answer, five)
}

// Commits: gives every position that is not used a key from the noise, and erases the data blocks without a live page.
#[unsafe(no_mangle)]
pub extern "C" fn johvimaru_commit(
    image: &mut [u8],
    map: &mut [u16],
    letters: &mut [u8],
    five: &mut [u32; 5],
    noise: &[u8],
) -> u32
    ensures { faced result image.new map.new letters.new five.new []
        ≡ face (commit_leaves left_whole image.old map.old letters.old (numbers_of five.old) noise.now) }
{
    let before = numbers_of(five);
    let answer = commit::commit(image, map, letters, before, noise);
    hand_over(answer, five)
}

// A commit of which the power lasts for n steps and the first k bytes of the next.
#[unsafe(no_mangle)]
pub extern "C" fn johvimaru_commit_cut(
    image: &mut [u8],
    map: &mut [u16],
    letters: &mut [u8],
    five: &mut [u32; 5],
    noise: &[u8],
    n: u64,
    k: usize,
) -> u32
    ensures { faced result image.new map.new letters.new five.new []
        ≡ face (commit_leaves (left n k) image.old map.old letters.old (numbers_of five.old) noise.now) }
{
    let before = numbers_of(five);
    let answer = commit::commit_cut(image, map, letters, before, noise, n, k);
    hand_over(answer, five)
}

// Removes the nodes of a file from an offset on, and commits: their keys are gone.
#[unsafe(no_mangle)]
pub extern "C" fn johvimaru_wipe(
    image: &mut [u8],
    map: &mut [u16],
    letters: &mut [u8],
    five: &mut [u32; 5],
    noise: &[u8],
    file: u32,
    offset: u32,
) -> u32
    ensures { faced result image.new map.new letters.new five.new [] ≡ face (wipe_leaves left_whole
        image.old map.old letters.old (numbers_of five.old) noise.now file offset) }
{
    let before = numbers_of(five);
    let answer = wipe::wipe(image, map, letters, before, noise, file, offset);
    hand_over(answer, five)
}

// A wipe of which the power lasts for n steps and the first k bytes of the next.
#[unsafe(no_mangle)]
pub extern "C" fn johvimaru_wipe_cut(
    image: &mut [u8],
    map: &mut [u16],
    letters: &mut [u8],
    five: &mut [u32; 5],
    noise: &[u8],
    file: u32,
    offset: u32,
    n: u64,
    k: usize,
) -> u32
    ensures { faced result image.new map.new letters.new five.new [] ≡ face (wipe_leaves (left n k)
        image.old map.old letters.old (numbers_of five.old) noise.now file offset) }
{
    let before = numbers_of(five);
    let answer = wipe::wipe_cut(image, map, letters, before, noise, file, offset, n, k);
    hand_over(answer, five)
}

// Copies the live pages of a data block out of it: the next commit erases the block.
#[unsafe(no_mangle)]
pub extern "C" fn johvimaru_gather(
    image: &mut [u8],
    map: &mut [u16],
    letters: &mut [u8],
    five: &mut [u32; 5],
    block: u32,
) -> u32
    ensures { faced result image.new map.new letters.new five.new []
        ≡ face (gather_leaves left_whole image.old map.old letters.old (numbers_of five.old) block) }
{
    let before = numbers_of(five);
    let answer = gather::gather(image, map, letters, before, block);
    hand_over(answer, five)
}

// A gather of which the power lasts for n steps and the first k bytes of the next.
#[unsafe(no_mangle)]
pub extern "C" fn johvimaru_gather_cut(
    image: &mut [u8],
    map: &mut [u16],
    letters: &mut [u8],
    five: &mut [u32; 5],
    block: u32,
    n: u64,
    k: usize,
) -> u32
    ensures { faced result image.new map.new letters.new five.new []
        ≡ face (gather_leaves (left n k) image.old map.old letters.old (numbers_of five.old) block) }
{
    let before = numbers_of(five);
    let answer = gather::gather_cut(image, map, letters, before, block, n, k);
    hand_over(answer, five)
}
