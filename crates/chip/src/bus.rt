// The bus: one cycle sent to the chip, one byte received from it.
ghost use Rattle.std.specs.Prelude.{◌≡◌, true, ◌+◌, ◌*◌, ◌/◌, ◌<◌, ◌≤◌, length};
ghost use Rattle.page.specs.Frame.{page_size};
ghost use Rattle.image.specs.Size.{block_size, pages_in_block, pages as pages_in, size_right};
ghost use Rattle.chip.specs.Registers.{valid, column_weight, row_weight};
ghost use Rattle.chip.specs.declared.State.TheVariants.{Program, Erase, Output};
ghost use Rattle.chip.specs.Reply.{number_of};
ghost use Rattle.chip.specs.Bus.{
  chip,
  second_of,
  started as started_set,
  opened as opened_set,
  addressed as addressed_set,
  performed as performed_on,
  commanded as commanded_on,
  located as located_set,
  loaded as loaded_set,
  takes_data,
  moved as moved_on,
  sent,
  replied,
  status_of,
  got,
  shown as shown_on,
  received,
};

use crate::{Cycle, Error, Got, Mark, Registers, Sent, State, register_set};
use image::look;
use page::{Frame, bytes};

// ONFI's command bytes.
pub const READ_FIRST: u8 = 0x00;

pub const READ_SECOND: u8 = 0x30;

pub const PROGRAM_FIRST: u8 = 0x80;

pub const PROGRAM_SECOND: u8 = 0x10;

pub const ERASE_FIRST: u8 = 0x60;

pub const ERASE_SECOND: u8 = 0xd0;

pub const READ_STATUS: u8 = 0x70;

pub const RESET: u8 = 0xff;

// The status: bit 6 says ready, bit 0 failed.
const READY: u8 = 0x40;

// A first byte begins a command.
fn started(x: u8) -> Registers
    ensures { result ≡ started_set x }
{
    if x == READ_FIRST {
        return register_set::begun(State::Read, 0);
    }
    if x == PROGRAM_FIRST {
        return register_set::begun(State::Program, 0);
    }
    if x == ERASE_FIRST {
        return register_set::begun(State::Erase, register_set::COLUMN_CYCLES);
    }
    register_set::resting(State::Idle, true)
}

// The byte that ends a command.
fn second_of(state: State) -> u8
    ensures { result ≡ second_of state }
{
    match state {
        State::Idle | State::Status | State::Output | State::Read => READ_SECOND,
        State::Program => PROGRAM_SECOND,
        State::Erase => ERASE_SECOND,
    }
}

// The page is open for reading from the column on.
fn opened(r: Registers) -> Registers
    ensures { result ≡ opened_set r }
{
    Registers {
        state: State::Output,
        ..r
    }
}

// Programs the page of the row with the page register, where it is empty.
fn programmed(r: Registers, image: &mut [u8]) -> Registers
    requires { r.row * page_size + page_size ≤ length image.old }
    ensures { chip result image.new ≡ performed_on Program r image.old }
{
    let g = r.row as usize;
    if !look::page_empty(image, g) {
        return register_set::resting(State::Idle, true);
    }
    let start = g * Frame::PAGE;
    let page = r.page;
    bytes::copy(&mut image[start..start + Frame::PAGE], &page);
    register_set::resting(State::Idle, false)
}

// Erases the block of the row.
fn cleared(r: Registers, image: &mut [u8]) -> Registers
    requires { r.row / pages_in_block * block_size + block_size ≤ length image.old }
    ensures { chip result image.new ≡ performed_on Erase r image.old }
{
    let b = r.row as usize / look::PAGES_IN_BLOCK;
    let start = b * look::BLOCK_SIZE;
    bytes::fill(&mut image[start..start + look::BLOCK_SIZE], Frame::ERASED);
    register_set::resting(State::Idle, false)
}

// Does a whole command.
fn performed(state: State, r: Registers, image: &mut [u8]) -> Registers
    requires { (r.row * page_size + page_size ≤ length image.old)
        × (r.row / pages_in_block * block_size + block_size ≤ length image.old) }
    ensures { chip result image.new ≡ performed_on state r image.old }
{
    match state {
        State::Idle | State::Status | State::Output => register_set::resting(State::Idle, true),
        State::Read => opened(r),
        State::Program => programmed(r, image),
        State::Erase => cleared(r, image),
    }
}

// A command byte.
fn commanded(x: u8, r: Registers, image: &mut [u8]) -> Registers
    requires { (size_right image.old ≡ true) × (valid (pages_in image.old) r ≡ true) }
    ensures { chip result image.new ≡ commanded_on x r image.old }
{
    if x == RESET {
        return register_set::resting(State::Idle, false);
    }
    let state = r.state;
    let within = register_set::in_command(state);
    if x == READ_STATUS {
        return register_set::resting(State::Status, r.failed | within);
    }
    if !within {
        return started(x);
    }
    if r.cycles != register_set::ALL_CYCLES {
        return register_set::resting(State::Idle, true);
    }
    if x != second_of(state) {
        return register_set::resting(State::Idle, true);
    }
    performed(state, r, image)
}

// What an address cycle weighs for column and row, by how many came before it: two of the column, then three of the row.
fn weights(cycles: u32) -> (u32, u32)
    ensures { (result ≡ (column_weight cycles, row_weight cycles)) × (column_weight cycles ≤ 256) × (row_weight cycles ≤ 65536) }
{
    match cycles {
        0 => (1, 0),
        1 => (256, 0),
        2 => (0, 1),
        3 => (0, 256),
        4 => (0, 65536),
        _ => (0, 0),
    }
}

// The registers with one address cycle more.
fn addressed(x: u8, r: Registers) -> Registers
    requires { (r.cycles < 5) × (r.column < 65536) × (r.row < 65536) }
    ensures { result ≡ addressed_set x r }
{
    let n = x as u32;
    let (of_column, of_row) = weights(r.cycles);
    Registers {
        cycles: r.cycles + 1,
        column: r.column + n * of_column,
        row: r.row + n * of_row,
        ..r
    }
}

// An address byte, judged once the address is whole.
fn located(pages: u32, x: u8, r: Registers) -> Registers
    requires { valid pages r ≡ true }
    ensures { result ≡ located_set pages x r }
{
    let state = r.state;
    if !register_set::in_command(state) {
        return register_set::resting(State::Idle, true);
    }
    if register_set::ALL_CYCLES <= r.cycles {
        return register_set::resting(State::Idle, true);
    }
    let q = addressed(x, r);
    if q.cycles < register_set::ALL_CYCLES {
        return q;
    }
    if register_set::PAGE <= q.column {
        return register_set::resting(State::Idle, true);
    }
    if pages <= q.row {
        return register_set::resting(State::Idle, true);
    }
    q
}

// Whether the state takes data bytes.
fn takes_data(state: State) -> bool
    ensures { result ≡ takes_data state }
{
    state == State::Program
}

// A data byte.
fn loaded(x: u8, r: Registers) -> Registers
    ensures { result ≡ loaded_set x r }
{
    let state = r.state;
    if !takes_data(state) {
        return register_set::resting(State::Idle, true);
    }
    if r.cycles != register_set::ALL_CYCLES {
        return register_set::resting(State::Idle, true);
    }
    if register_set::PAGE <= r.column {
        return register_set::resting(State::Idle, true);
    }
    let mut page = r.page;
    let at = r.column as usize;
    page[at] = x;
    Registers {
        column: r.column + 1,
        page,
        ..r
    }
}

// A byte by its mark.
fn moved(mark: Mark, x: u8, r: Registers, image: &mut [u8]) -> Registers
    requires { (size_right image.old ≡ true) × (valid (pages_in image.old) r ≡ true) }
    ensures { chip result image.new ≡ moved_on mark x r image.old }
{
    match mark {
        Mark::Command => commanded(x, r, image),
        Mark::Address => located(look::pages(image) as u32, x, r),
        Mark::Data => loaded(x, r),
    }
}

// One cycle sent to the chip, registers by value.
pub fn step(r: Registers, image: &mut [u8], c: Cycle) -> Sent
    ensures { (chip result.registers image.new ≡ sent c (chip r image.old)) × (number_of result.reply ≡ replied image.old) }
{
    if !look::size_right(image) {
        return Sent {
            registers: r,
            reply: Err(Error::ImageSize),
        };
    }
    let n = look::pages(image) as u32;
    let q = register_set::counts_as(n, r);
    let mark = c.mark;
    let registers = moved(mark, c.byte, q, image);
    Sent {
        registers,
        reply: Ok(()),
    }
}

// The status byte.
fn status_of(failed: bool) -> u8
    ensures { result ≡ status_of failed }
{
    if failed {
        return READY + 1;
    }
    READY
}

// The next byte of the page that is open.
fn next_byte(r: Registers, image: &[u8]) -> Got
    requires { r.row * page_size + page_size ≤ length image.now }
    ensures { result ≡ shown_on Output r image.now }
{
    if register_set::PAGE <= r.column {
        return Got {
            registers: r,
            byte: Frame::ERASED,
            reply: Ok(()),
        };
    }
    let at = r.row as usize * Frame::PAGE + r.column as usize;
    let byte = image[at];
    let registers = Registers {
        column: r.column + 1,
        ..r
    };
    Got {
        registers,
        byte,
        reply: Ok(()),
    }
}

// What a set that cycles leave shows.
fn shown(state: State, r: Registers, image: &[u8]) -> Got
    requires { (size_right image.now ≡ true) × (valid (pages_in image.now) r ≡ true) × (r.state ≡ state) }
    ensures { result ≡ shown_on state r image.now }
{
    match state {
        State::Status => Got {
            registers: r,
            byte: status_of(r.failed),
            reply: Ok(()),
        },
        State::Output => next_byte(r, image),
        State::Idle | State::Read | State::Program | State::Erase => Got {
            registers: r,
            byte: Frame::ERASED,
            reply: Ok(()),
        },
    }
}

// One byte received from the chip, registers by value.
pub fn fetch(r: Registers, image: &[u8]) -> Got
    ensures { result ≡ received r image.now }
{
    if !look::size_right(image) {
        return Got {
            registers: r,
            byte: Frame::ERASED,
            reply: Err(Error::ImageSize),
        };
    }
    if !register_set::valid(look::pages(image) as u32, r) {
        return Got {
            registers: r,
            byte: Frame::ERASED,
            reply: Ok(()),
        };
    }
    let state = r.state;
    shown(state, r, image)
}

// One cycle sent to the chip, which keeps its registers.
pub fn send(r: &mut Registers, image: &mut [u8], c: Cycle) -> Result<(), Error>
    ensures { (chip r.new image.new ≡ sent c (chip r.old image.old)) × (number_of result ≡ replied image.old) }
{
    let s = step(*r, image, c);
    *r = s.registers;
    s.reply
}

// One byte received from the chip, which keeps its registers.
pub fn receive(r: &mut Registers, image: &[u8]) -> Got
    ensures { (result ≡ received r.old image.now) × (r.new ≡ result.registers) }
{
    let g = fetch(*r, image);
    *r = g.registers;
    g
}
