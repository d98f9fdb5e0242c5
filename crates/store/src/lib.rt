// The store: block kinds, the working record and its fit, and the calls of documents 01 and 02.
#![tactic(auto)]

pub mod commit;
pub mod cut_off;
mod find;
mod fit;
pub mod format;
pub mod gather;
mod kinds;
pub mod mount;
mod next;
pub mod read;
mod rebuild;
mod record;
mod replay;
pub mod replies;
mod stages;
mod survey;
mod sweep;
mod tests;
pub mod wipe;
pub mod write;

use page::keys::Letters;
use page::plan::Map;

// At least as many steps as any call has: a plain call is the form with n and k at this n.
const ENOUGH: u64 = 1000;

// The numbers of the working record: the next sequence and epoch, and the blocks of key block 0, key block 1 and the commit.
// Stays (2): the two key blocks are two fields, since the definitions and C name all five numbers.
#[derive(Clone, Copy)]
pub struct Numbers {
    pub sequence: u32,
    pub epoch: u32,
    pub keys0: u32,
    pub keys1: u32,
    pub commit: u32,
}

// The working record as a call reads it: the lists have their lengths by their types.
#[derive(Clone, Copy)]
pub struct Lent<'a> {
    pub map: &'a Map,
    pub letters: &'a Letters,
    pub numbers: Numbers,
}

// What a block is, as far as its pages say it by themselves.
#[derive(Clone, Copy)]
pub enum Kind {
    // A whole key block: its number, 0 or 1, and its epoch.
    Keys(u32, u32),
    // A whole commit block: its epoch and the covered sequence.
    Commit(u32, u32),
    Other,
}

// Why a call did not succeed, with its number: each but the last is a refusal of document 01 or 02.
#[derive(Clone, Copy)]
pub enum Error {
    ImageSize = 1,
    BufferLength = 2,
    NoiseLength = 3,
    NoSuchFile = 4,
    OffsetOutside = 5,
    PayloadLength = 6,
    RecordUnfit = 7,
    NothingThere = 8,
    NoFreeKey = 9,
    NoRoom = 10,
    NumbersSpent = 11,
    NoKeyBlock = 12,
    NoCommit = 13,
    EntryUnfit = 14,
    NothingToGather = 15,
    // The power failed before the call's last step was whole.
    PowerCut = 255,
}

// A call's answer: its reply, and the numbers of the record afterwards.
#[derive(Clone, Copy)]
pub struct Answer {
    pub reply: Result<(), Error>,
    pub numbers: Numbers,
}
