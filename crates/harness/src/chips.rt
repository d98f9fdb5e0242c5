// C entry points into the crate `chip`: the driver's whole step against the model.
ghost use Rattle.std.specs.Prelude.{◌≡◌};
ghost use Rattle.harness.specs.Chip.{driven, program_answer, erase_answer};

use chip::{driver, numbers};

// Programs page g.
#[unsafe(no_mangle)]
pub extern "C" fn harness_chip_program(
    image: &mut [u8],
    registers: &mut [u32; 5],
    page: &mut [u8; 256],
    g: u32,
    bytes: &[u8],
) -> u32
    ensures { driven result image.new registers.new page.new
        ≡ program_answer g bytes.now image.old registers.old page.old }
{
    let before = numbers::set_of(registers, page);
    let sent = driver::program(before, image, g, bytes);
    *registers = numbers::five_of(sent.registers);
    let held = sent.registers.page;
    *page = held;
    numbers::reply_number(sent.reply)
}

// Erases a block.
#[unsafe(no_mangle)]
pub extern "C" fn harness_chip_erase(
    image: &mut [u8],
    registers: &mut [u32; 5],
    page: &mut [u8; 256],
    block: u32,
) -> u32
    ensures { driven result image.new registers.new page.new
        ≡ erase_answer block image.old registers.old page.old }
{
    let before = numbers::set_of(registers, page);
    let sent = driver::erase(before, image, block);
    *registers = numbers::five_of(sent.registers);
    let held = sent.registers.page;
    *page = held;
    numbers::reply_number(sent.reply)
}
