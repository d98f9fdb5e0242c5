// The pages of the flash: headers, page forms, commit entries and letters, the file plan, key positions.
#![tactic(auto)]

pub mod bytes;
pub mod columns;
pub mod entries;
pub mod forms;
pub mod frames;
pub mod headers;
pub mod keys;
pub mod plan;
mod words;
pub mod writers;

// What stands around a page's payload: the fields of its header. The closing is the same on every page.
// Stays (1): kind is the letter itself. A header begins with it: header_bytes puts it there as it is, and theorems compare it.
#[derive(Clone, Copy, PartialEq, Eq)]
pub struct Frame {
    pub kind: u8,
    pub number: u32,
    pub unit: u32,
    pub part: u32,
    pub key: u32,
    pub second: u32,
}

// A page's form.
#[derive(Clone, Copy)]
pub enum Form {
    Empty,
    Whole(Frame),
    Torn(Frame),
    Spoilt,
}

// What 8 bytes are as an entry of a commit: a page and a key position, or none.
// Stays (1): a vacant entry is a right one, and a misspelt one is told from it in one match; as a result of an option each
// kind would take two words, Ok(Some((page, key))), Ok(None) and Err(Misspelt), where it has its name here.
#[derive(Clone, Copy)]
pub enum Entry {
    At(u32, u32),
    Vacant,
    Misspelt,
}
