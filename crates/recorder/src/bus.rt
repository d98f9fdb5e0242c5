// The chip's bus for C: the bytes that the driver sends for a step, one by one, and the chip's model.
ghost use Rattle.std.specs.Prelude.{◌≡◌};
ghost use Rattle.chip.specs.Driver.{reply_of};
ghost use Rattle.chip.specs.Numbers.{cycle_of};
ghost use Rattle.recorder.specs.Bus.{given, program_byte, erase_byte, modelled, model_sent, fetched, model_received};

use chip::{Error, bus, driver, numbers};
use page::Frame;

// What the driver's calls reply where all is right.
// Stays (1): C gets this number.
const DONE: u32 = 0;

// Byte i of the program of page g with 256 bytes: its mark and the byte. Behind the last it is the status command.
#[unsafe(no_mangle)]
pub extern "C" fn johvimaru_bus_program_byte(
    g: u32,
    bytes: &[u8],
    i: usize,
    cycle: &mut [u8; 2],
) -> u32
    ensures { given result cycle.new ≡ program_byte g bytes.now i cycle.old }
{
    if bytes.len() != Frame::PAGE {
        return Error::PageLength.number();
    }
    if driver::LAST_PAGE < g {
        return Error::Failed.number();
    }
    *cycle = numbers::pair_of(driver::program_cycle(g, bytes, i));
    DONE
}

// Byte i of the erase of a block: its mark and the byte. Behind the last it is the status command.
#[unsafe(no_mangle)]
pub extern "C" fn johvimaru_bus_erase_byte(block: u32, i: usize, cycle: &mut [u8; 2]) -> u32
    ensures { given result cycle.new ≡ erase_byte block i cycle.old }
{
    if driver::LAST_BLOCK < block {
        return Error::Failed.number();
    }
    *cycle = numbers::pair_of(driver::erase_cycle(block, i));
    DONE
}

// The reply to a step by the status byte that was received after its last byte.
#[unsafe(no_mangle)]
pub extern "C" fn johvimaru_bus_reply(status: u8) -> u32
    ensures { result ≡ reply_of status }
{
    numbers::reply_number(driver::reply_of(status))
}

// A byte sent to the model of the chip.
#[unsafe(no_mangle)]
pub extern "C" fn johvimaru_model_send(
    image: &mut [u8],
    registers: &mut [u32; 5],
    page: &mut [u8; 256],
    mark: u32,
    byte: u8,
) -> u32
    ensures { modelled result image.new registers.new page.new
        ≡ model_sent (cycle_of mark byte) image.old registers.old page.old }
{
    let before = numbers::set_of(registers, page);
    let cycle = numbers::cycle_of(mark, byte);
    let sent = bus::step(before, image, cycle);
    if let Err(error) = sent.reply {
        return error.number();
    }
    *registers = numbers::five_of(sent.registers);
    let held = sent.registers.page;
    *page = held;
    DONE
}

// A byte received from the model of the chip.
#[unsafe(no_mangle)]
pub extern "C" fn johvimaru_model_receive(
    image: &[u8],
    registers: &mut [u32; 5],
    page: &[u8; 256],
    byte: &mut [u8; 1],
) -> u32
    ensures { fetched result registers.new byte.new
        ≡ model_received image.now registers.old page.now }
{
    let before = numbers::set_of(registers, page);
    let got = bus::fetch(before, image);
    registers[2] = got.registers.column;
    *byte = [got.byte];
    numbers::reply_number(got.reply)
}
