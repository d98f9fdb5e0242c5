// The register set: the sets that rest and begin, and which sets cycles leave.
ghost use Rattle.std.specs.Prelude.{◌≡◌, ◌≤◌, length, drop};
ghost use Rattle.page.specs.Form.{is_empty};
ghost use Rattle.chip.specs.Registers.{
  resting as resting_set,
  begun as begun_set,
  in_command,
  columns_of,
  state_fits,
  address_fits,
  sent_to,
  valid as valid_set,
  counts_as as counts_as_set,
  column_limit,
};

use crate::{Registers, State};
use page::{Frame, forms};

// An address has two column cycles, then three row cycles.
pub(crate) const COLUMN_CYCLES: u32 = 2;

pub(crate) const ALL_CYCLES: u32 = 5;

pub(crate) const PAGE: u32 = 256;

// A set without a command.
pub fn resting(state: State, failed: bool) -> Registers
    ensures { result ≡ resting_set state failed }
{
    Registers {
        state,
        cycles: 0,
        column: 0,
        row: 0,
        page: [Frame::ERASED; 256],
        failed,
    }
}

// A set at the start of a command.
pub(crate) fn begun(state: State, cycles: u32) -> Registers
    ensures { result ≡ begun_set state cycles }
{
    Registers {
        cycles,
        ..resting(state, false)
    }
}

// Whether a command was begun and its last byte is still to come.
pub(crate) fn in_command(state: State) -> bool
    ensures { result ≡ in_command state }
{
    match state {
        State::Idle | State::Status | State::Output => false,
        State::Read | State::Program | State::Erase => true,
    }
}

// What the state says of the other registers.
fn state_fits(state: State, cycles: u32, column: u32, failed: bool) -> bool
    ensures { result ≡ state_fits state cycles column failed }
{
    match state {
        State::Idle | State::Status => cycles == 0,
        State::Output => !failed & (cycles == ALL_CYCLES),
        State::Read | State::Program => !failed,
        State::Erase => !failed & (COLUMN_CYCLES <= cycles) & (column == 0),
    }
}

// How many columns the state may stand at.
fn columns_of(state: State) -> u32
    ensures { result ≡ columns_of state }
{
    match state {
        State::Idle | State::Status | State::Read | State::Erase => PAGE,
        State::Output | State::Program => PAGE + 1,
    }
}

// What a column or a row stays below after so many of its own cycles, low byte first.
fn limit(cycles: u32) -> u32
    ensures { result ≡ column_limit cycles }
{
    match cycles {
        0 => 1,
        1 => 256,
        _ => 65536,
    }
}

// Whether column and row are what so many cycles give, and inside page and image once the address is whole.
fn address_fits(columns: u32, pages: u32, cycles: u32, column: u32, row: u32) -> bool
    ensures { result ≡ address_fits columns pages cycles column row }
{
    if cycles < ALL_CYCLES {
        return (column < limit(cycles)) & (row < limit(cycles.saturating_sub(COLUMN_CYCLES)));
    }
    (cycles == ALL_CYCLES) & (column < columns) & (row < pages)
}

// Where the bytes of the page register end that may have been sent.
fn sent_to(state: State, cycles: u32, column: u32) -> u32
    ensures { result ≡ sent_to state cycles column }
{
    if state == State::Program && cycles == ALL_CYCLES {
        column
    } else {
        0
    }
}

// Whether all bytes from a place on are FFh.
fn empty_from(page: &[u8], from: u32) -> bool
    requires { from ≤ length page.now }
    ensures { result ≡ is_empty (drop from page.now) }
{
    let at = from as usize;
    forms::is_empty(&page[at..])
}

// Whether cycles over an image of so many pages leave the set.
pub(crate) fn valid(pages: u32, r: Registers) -> bool
    ensures { result ≡ valid_set pages r }
{
    let state = r.state;
    if !state_fits(state, r.cycles, r.column, r.failed) {
        return false;
    }
    if !address_fits(columns_of(state), pages, r.cycles, r.column, r.row) {
        return false;
    }
    let page = r.page;
    empty_from(&page, sent_to(state, r.cycles, r.column))
}

// A set that no cycles leave counts as failed, with no command.
pub(crate) fn counts_as(pages: u32, r: Registers) -> Registers
    ensures { result ≡ counts_as_set pages r }
{
    if valid(pages, r) {
        return r;
    }
    resting(State::Idle, true)
}
