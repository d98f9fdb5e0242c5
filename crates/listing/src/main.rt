// The listing program: reads an image, mounts it, and prints its nodes by place and the counts of letters.
#![tactic(auto)]

mod text;

ghost use Rattle.std.specs.Prelude.{◌≡◌, ◌≤◌, length, take, IfOk, OnOk, IfSome};
ghost use Rattle.std.specs.Io.KnownBytes.{Appends};
ghost use Rattle.listing.specs.Listing.{listing_of, listed, text_size};
ghost use Rattle.listing.specs.Text.{written};

use page::keys::POSITIONS;
use page::plan::{MAP_SIZE, PLACES};
use std::io;
use std::io::{Read, Write};
use store::{Error, mount};
use text::Text;

// The most bytes that are taken as an image.
const LONGEST: usize = 65_536;

// The listing of an image, which is mounted for it.
fn list_image(image: &mut [u8]) -> Text
    ensures { (result.length ≤ text_size) × (written result ≡ listing_of image.old) }
{
    let mut map = [0u16; MAP_SIZE];
    let mut letters = [0u8; POSITIONS];
    let mut scratch = [0u32; PLACES];
    let answer = mount::mount(image, &mut map, &mut letters, &mut scratch);
    text::text_of(answer.reply, &map, &letters)
}

// The listing of what was read.
fn list(input: &mut [u8]) -> Text
    ensures { (result.length ≤ text_size) × (written result ≡ listed input.old) }
{
    if LONGEST < input.len() {
        return text::refusal(Error::ImageSize);
    }
    list_image(input)
}

// Reads until the buffer is full or the input ends, and gives how many bytes it put at the front.
fn read_full<R: Read>(reader: &mut R, buf: &mut [u8]) -> io::Result<usize>
    ensures within { IfOk result (λ n. n ≤ length buf.new) }
    ensures bytes { IfOk result (λ n. IfSome (R.remaining reader.old)
        (λ input. take n buf.new ≡ take (length buf.new) input)) }
{
    let mut done: usize = 0;
    // Stays (3): a read says itself how far it came, so no range has the steps.
    while done < buf.len() {
        let n = reader.read(&mut buf[done..])?;
        if n == 0 {
            break;
        }
        done += n;
    }
    Ok(done)
}

// Reads one byte more than an image has at most, so that longer input is seen, and writes the listing.
fn list_input<R: Read, W: Write>(reader: &mut R, writer: &mut W) -> io::Result<()>
    ensures { OnOk result (IfSome (R.remaining reader.old)
        (λ input. Appends (W.contents writer.old) (W.contents writer.new) (listed input))) }
{
    let mut input = [0u8; LONGEST + 1];
    let n = read_full(reader, &mut input)?;
    let text = list(&mut input[..n]);
    writer.write_all(text.as_bytes())
}

fn main(rt: HostRuntime) -> io::Result<()> {
    list_input(&mut rt.stdin(), &mut rt.stdout())
}
