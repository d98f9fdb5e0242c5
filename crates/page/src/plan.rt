// The file plan: how many nodes each file holds, and the file of a place.
ghost use Rattle.std.specs.Prelude.{◌≡◌, ◌≤◌, ◌<◌, ◌+◌};
ghost use Rattle.page.specs.Plan.{file_plan, last_file, places, count_of, start_of};

pub const LAST_FILE: u32 = 13;

// The sum of the counts.
pub const PLACES: usize = 224;

// A map has a page and a key for each place.
pub const MAP_SIZE: usize = PLACES + PLACES;

// Stays (6): pages and keys stand in one list, since C hands it over so.
pub type Map = [u16; MAP_SIZE];

// How many nodes each file holds, and how many the files before it hold.
// Stays (6): with one list of 15 starts a count would be a difference of two of them, behind a test of the file; get gives the
// 0 that the definition has for what is no file.
static COUNTS: [u32; 14] = [32, 32, 24, 24, 16, 16, 16, 16, 8, 8, 8, 8, 8, 8];

static STARTS: [u32; 14] = [
    0, 32, 64, 88, 112, 128, 144, 160, 176, 184, 192, 200, 208, 216,
];

// How many nodes a file holds; none where there is no such file.
pub fn count(file: u32) -> u32
    ensures { result ≡ count_of file_plan file }
{
    COUNTS.get(file as usize).copied().unwrap_or(0)
}

// How many nodes the files before a file hold.
pub fn start(file: u32) -> u32
    requires { file ≤ last_file }
    ensures { result ≡ start_of file_plan file }
{
    STARTS[file as usize]
}

// The file of a place.
// Stays (6): partition_point asks that the starts are in order, which nothing else here needs; the loop goes by two at a time.
pub fn file_at(x: usize) -> u32
    requires { x < places }
    ensures { (result ≤ last_file) × (start_of file_plan result ≤ x) × (x < start_of file_plan result + count_of file_plan result) }
{
    for file in 0..LAST_FILE {
        if x < start(file + 1) as usize {
            return file;
        }
    }
    LAST_FILE
}
