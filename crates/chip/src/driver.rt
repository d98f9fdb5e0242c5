// The driver: the cycles of a step of the flash, one by one, and a run of them against the chip.
ghost use Rattle.std.specs.Prelude.{◌≡◌, ◌<◌, ℕ, List, length};
ghost use Rattle.chip.specs.declared.Cycle.{Cycle as SentCycle};
ghost use Rattle.chip.specs.Bus.{chip};
ghost use Rattle.chip.specs.Reply.{number_of};
ghost use Rattle.chip.specs.Driver.{
  row_cycle,
  program_cycles,
  erase_cycles,
  cycle_at,
  driven,
  reply_of,
  ended as ended_on,
  drove,
  drove_program,
  drove_erase,
};

use crate::{Cycle, Error, Registers, Sent, bus};
use page::Frame;

// The highest page and block that any image has.
pub const LAST_PAGE: u32 = 4095;

pub const LAST_BLOCK: u32 = 255;

// Cycle i of a row: its three bytes, low byte first.
fn row_cycle(row: u32, i: usize) -> Cycle
    ensures { result ≡ row_cycle row i }
{
    let [low, middle, high, _] = row.to_le_bytes();
    match i {
        0 => Cycle::address(low),
        1 => Cycle::address(middle),
        _ => Cycle::address(high),
    }
}

// Cycle i of the program of page g with these bytes; behind the last, the status again.
pub fn program_cycle(g: u32, page: &[u8], i: usize) -> Cycle
    ensures { result ≡ cycle_at (program_cycles g page.now) i }
{
    match i {
        0 => return Cycle::command(bus::RESET),
        1 => return Cycle::command(bus::PROGRAM_FIRST),
        2 | 3 => return Cycle::address(0),
        4..=6 => return row_cycle(g, i - 4),
        _ => {}
    }
    let at = i - 7;
    if at < page.len() {
        return Cycle::data(page[at]);
    }
    if at == page.len() {
        return Cycle::command(bus::PROGRAM_SECOND);
    }
    Cycle::command(bus::READ_STATUS)
}

// Cycle i of the erase of block b; behind the last, the status again.
pub fn erase_cycle(b: u32, i: usize) -> Cycle
    ensures { result ≡ cycle_at (erase_cycles b) i }
{
    match i {
        0 => Cycle::command(bus::RESET),
        1 => Cycle::command(bus::ERASE_FIRST),
        2..=4 => row_cycle(b % 1048576 * 16, i - 2),
        5 => Cycle::command(bus::ERASE_SECOND),
        _ => Cycle::command(bus::READ_STATUS),
    }
}

// The reply to a step by the status byte: bit 0 says failed.
pub fn reply_of(status: u8) -> Result<(), Error>
    ensures { number_of result ≡ reply_of status }
{
    if status % 2 == 1 {
        return Err(Error::Failed);
    }
    Ok(())
}

// The status byte is read after the last cycle.
fn ended(r: Registers, image: &[u8]) -> Sent
    ensures { driven (number_of result.reply) result.registers image.now ≡ ended_on (chip r image.now) }
{
    let g = bus::fetch(r, image);
    let registers = g.registers;
    Sent {
        registers,
        reply: reply_of(g.byte),
    }
}

// How many cycles a program of a page and an erase have.
const PROGRAM_CYCLES: usize = 265;

const ERASE_CYCLES: usize = 7;

// Sends so many cycles until the chip refuses one, then reads the status.
fn send<C: Fn(usize) -> Cycle>(r: Registers, image: &mut [u8], count: usize, cycle: C) -> Sent
    requires { C.IsAlwaysCallable cycle }
    ensures { (cycles : List SentCycle) → 0 < count → length cycles ≡ count
        → ((i : ℕ) (sent : SentCycle) → i < count → C.post cycle i sent → sent ≡ cycle_at cycles i)
        → driven (number_of result.reply) result.registers image.new ≡ drove cycles r image.old }
{
    let mut q = r;
    for i in 0..count {
        let s = bus::step(q, image, cycle(i));
        if s.reply.is_err() {
            return s;
        }
        q = s.registers;
    }
    ended(q, image)
}

// Programs page g of the chip with 256 bytes.
pub fn program(r: Registers, image: &mut [u8], g: u32, page: &[u8]) -> Sent
    ensures { driven (number_of result.reply) result.registers image.new ≡ drove_program g page.now r image.old }
{
    if page.len() != Frame::PAGE {
        return Sent {
            registers: r,
            reply: Err(Error::PageLength),
        };
    }
    if LAST_PAGE < g {
        return Sent {
            registers: r,
            reply: Err(Error::Failed),
        };
    }
    send(r, image, PROGRAM_CYCLES, |i| program_cycle(g, page, i))
}

// Erases block b of the chip.
pub fn erase(r: Registers, image: &mut [u8], b: u32) -> Sent
    ensures { driven (number_of result.reply) result.registers image.new ≡ drove_erase b r image.old }
{
    if LAST_BLOCK < b {
        return Sent {
            registers: r,
            reply: Err(Error::Failed),
        };
    }
    send(r, image, ERASE_CYCLES, |i| erase_cycle(b, i))
}
