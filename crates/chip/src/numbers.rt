// Registers and cycles as numbers, for callers in C.
ghost use Rattle.std.specs.Prelude.{◌≡◌};
ghost use Rattle.chip.specs.Reply.{error_number, number_of};
ghost use Rattle.chip.specs.Numbers.{
  state_of,
  cycles_in,
  set_of,
  five_of,
  cycle_of,
  pair_of,
};

use crate::{Cycle, Error, Registers, State};

// How many states there are, and more address cycles than any set has.
// Stays (1): the C interface takes any five numbers as a set, and any number as a mark; one that is none counts as failed,
// with no command, which these two values bring about.
const STATES: u32 = 6;

const TOO_MANY_CYCLES: u32 = 6;

// A command byte that is none.
const NO_COMMAND: u8 = 0x01;

// The state of a number.
fn state_of(s: u32) -> State
    ensures { result ≡ state_of s }
{
    match s {
        1 => State::Status,
        2 => State::Output,
        3 => State::Read,
        4 => State::Program,
        5 => State::Erase,
        _ => State::Idle,
    }
}

// The address cycles of a set, more than any has where its state or failed is no such number.
fn cycles_in(state: u32, cycles: u32, failed: u32) -> u32
    ensures { result ≡ cycles_in state cycles failed }
{
    if STATES <= state {
        return TOO_MANY_CYCLES;
    }
    if 2 <= failed {
        return TOO_MANY_CYCLES;
    }
    cycles
}

// The set of five numbers and a page register.
pub fn set_of(five: &[u32; 5], page: &[u8; 256]) -> Registers
    ensures { result ≡ set_of five.now page.now }
{
    Registers {
        state: state_of(five[0]),
        cycles: cycles_in(five[0], five[1], five[4]),
        column: five[2],
        row: five[3],
        page: *page,
        failed: five[4] == 1,
    }
}

// The five numbers of a set.
pub fn five_of(r: Registers) -> [u32; 5]
    ensures { result ≡ five_of r }
{
    [r.state as u32, r.cycles, r.column, r.row, r.failed as u32]
}

// The cycle of a mark's number and a byte.
pub fn cycle_of(mark: u32, byte: u8) -> Cycle
    ensures { result ≡ cycle_of mark byte }
{
    match mark {
        0 => Cycle::command(byte),
        1 => Cycle::address(byte),
        2 => Cycle::data(byte),
        _ => Cycle::command(NO_COMMAND),
    }
}

// A cycle as two bytes: its mark's number and its byte.
pub fn pair_of(c: Cycle) -> [u8; 2]
    ensures { result ≡ pair_of c }
{
    [c.mark as u8, c.byte]
}

impl Error {
    // The number of a reply that is no success.
    pub fn number(self) -> u32
        ensures { result ≡ error_number self }
    {
        self as u32
    }
}

// The number of a reply.
pub fn reply_number(r: Result<(), Error>) -> u32
    ensures { result ≡ number_of r }
{
    match r {
        Ok(()) => 0,
        Err(error) => error.number(),
    }
}
