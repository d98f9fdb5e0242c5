// The text of a listing.
ghost use Rattle.std.specs.Prelude.{◌≡◌, ◌++◌, ◌≤◌, ◌<◌, ◌+◌, ◌*◌};
ghost use Rattle.page.specs.Column.{spell};
ghost use Rattle.page.specs.Plan.{last_file, places};
ghost use Rattle.store.specs.Reply.{error_number, number_of};
ghost use Rattle.listing.specs.Listing.{line_end, file_of, offset_of, row, row_of, rows_from, row_size, total, totals, totals_size, refusal, text_of, text_size};
ghost use Rattle.listing.specs.Text.{written};

use page::keys::Letters;
use page::plan::{Map, PLACES};
use page::{columns, entries, plan};
use store::Error;

// The longest text: a row of 21 bytes for each place, then the totals.
const LONGEST: usize = 4_723;

const LINE_END: u8 = b'\n';

// A text as far as it is written: the first bytes, so many.
// Stays (6): memory is fixed, and a String would ask for more as it grows.
#[derive(Drop)]
pub struct Text {
    bytes: [u8; LONGEST],
    length: usize,
}

impl Text {
    // A text of which nothing is written.
    fn empty() -> Text
        ensures { result.length ≡ 0 }
    {
        Text {
            bytes: [0; LONGEST],
            length: 0,
        }
    }

    // What is written.
    pub fn as_bytes(&self) -> &[u8]
        requires { self.now.length ≤ text_size }
        ensures { result.now ≡ written self.now }
    {
        &self.bytes[..self.length]
    }

    // Writes n in w columns.
    fn put_number(&mut self, w: usize, n: u32)
        requires { (self.old.length + w ≤ text_size) × (1 ≤ w) }
        ensures { (self.new.length ≡ self.old.length + w) × (written self.new ≡ written self.old ++ spell w n) }
    {
        columns::put_at(&mut self.bytes, self.length, w, n);
        self.length += w;
    }

    // Ends the line.
    fn put_line_end(&mut self)
        requires { self.old.length < text_size }
        ensures { (self.new.length ≡ self.old.length + 1) × (written self.new ≡ written self.old ++ line_end) }
    {
        self.bytes[self.length] = LINE_END;
        self.length += 1;
    }

    // Writes the row of a node.
    fn put_row(&mut self, file: u32, offset: u32, page: u16, key: u16)
        requires { self.old.length + row_size ≤ text_size }
        ensures { (self.new.length ≡ self.old.length + row_size)
            × (written self.new ≡ written self.old ++ row file offset page key) }
    {
        self.put_number(4, file);
        self.put_number(4, offset);
        self.put_number(6, page as u32);
        self.put_number(6, key as u32);
        self.put_line_end();
    }

    // Writes the row of place x, if it has a node.
    fn put_place(&mut self, map: &Map, x: usize)
        requires { (self.old.length + row_size ≤ text_size) × (x < places) }
        ensures { (self.new.length ≤ self.old.length + row_size)
            × (written self.new ≡ written self.old ++ row_of map.now x) }
    {
        if map[x] == entries::NONE {
            return;
        }
        let file = plan::file_at(x);
        self.put_row(file, offset_of(x, file), map[x], map[PLACES + x]);
    }

    // Writes the rows of all places.
    fn put_rows(&mut self, map: &Map)
        requires { self.old.length + row_size * places ≤ text_size }
        ensures { (self.new.length ≤ self.old.length + row_size * places)
            × (written self.new ≡ written self.old ++ rows_from map.now places 0) }
    {
        for x in 0..PLACES {
            self.put_place(map, x);
        }
    }

    // Writes the line of totals.
    fn put_totals(&mut self, letters: &Letters)
        requires { self.old.length + totals_size ≤ text_size }
        ensures { (self.new.length ≡ self.old.length + totals_size)
            × (written self.new ≡ written self.old ++ totals letters.now) }
    {
        self.put_number(6, count(letters, entries::USED));
        self.put_number(6, count(letters, entries::FREE));
        self.put_number(6, count(letters, entries::DELETED));
        self.put_line_end();
    }
}

// The offset of place x in its file.
fn offset_of(x: usize, file: u32) -> u32
    requires { (x < places) × (file ≡ file_of x) × (file ≤ last_file) }
    ensures { result ≡ offset_of x }
{
    x as u32 - plan::start(file)
}

// How many positions have letter l.
fn count(letters: &Letters, l: u8) -> u32
    ensures { result ≡ total l letters.now }
{
    letters.iter().filter(|x| **x == l).count() as u32
}

// The rows and the totals of a record.
fn listed_record(map: &Map, letters: &Letters) -> Text
    ensures { (result.length ≤ text_size) × (written result ≡ rows_from map.now places 0 ++ totals letters.now) }
{
    let mut text = Text::empty();
    text.put_rows(map);
    text.put_totals(letters);
    text
}

// The line of a refusal.
pub fn refusal(error: Error) -> Text
    ensures { (result.length ≤ text_size) × (written result ≡ refusal (error_number error)) }
{
    let mut text = Text::empty();
    text.put_number(6, error.number());
    text.put_line_end();
    text
}

// The text for mount's reply and the record that mount left.
pub fn text_of(reply: Result<(), Error>, map: &Map, letters: &Letters) -> Text
    ensures { (result.length ≤ text_size) × (written result ≡ text_of (number_of reply) map.now letters.now) }
{
    match reply {
        Ok(()) => listed_record(map, letters),
        Err(error) => refusal(error),
    }
}
