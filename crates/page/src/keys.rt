// Key positions: where the key of a position stands, and the key in a slot.
ghost use Rattle.std.specs.Prelude.{◌≡◌, ◌<◌};
ghost use Rattle.page.specs.Key.{keys_in_page, key_block, key_page, key_slot, key_in_page};

use crate::frames::Page;
use crate::{Frame, bytes};

// A key has 16 bytes; a key page holds 14 of them after its header, a key block 224, the two key blocks 448.
pub const KEY_SIZE: usize = 16;

pub const KEYS_IN_PAGE: usize = 14;

pub const KEYS_IN_BLOCK: usize = 224;

pub const POSITIONS: usize = 448;

pub const LAST_POSITION: u32 = 447;

// A letter for each position.
pub type Letters = [u8; POSITIONS];

// A key's worth of noise for each position.
pub const NOISE_SIZE: usize = KEY_SIZE * POSITIONS;

pub type Noise = [u8; NOISE_SIZE];

// The key block of position p.
pub fn block_of(p: usize) -> usize
    ensures { result ≡ key_block p }
{
    p / KEYS_IN_BLOCK
}

// The page of that block.
pub fn page_of(p: usize) -> usize
    ensures { result ≡ key_page p }
{
    p % KEYS_IN_BLOCK / KEYS_IN_PAGE
}

// The slot of that page.
pub fn slot_of(p: usize) -> usize
    ensures { result ≡ key_slot p }
{
    p % KEYS_IN_PAGE
}

// The key in a slot of a key page.
pub fn key_in_page(page: &Page, slot: usize) -> [u8; 16]
    requires { slot < keys_in_page }
    ensures { result ≡ key_in_page page.now slot }
{
    let at = Frame::HEADER + KEY_SIZE * slot;
    *bytes::array_at(page, at)
}
