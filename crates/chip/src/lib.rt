// The flash chip of document 02, #109: its side of the bus as a model, and the driver that sends it the steps of the flash.
#![tactic(auto)]

ghost use Rattle.std.specs.Prelude.{◌≡◌};
ghost use Rattle.chip.specs.Cycle.{command, address, data_byte};

pub mod bus;
pub mod driver;
pub mod numbers;
pub mod register_set;

// What a byte of the bus is.
#[derive(Clone, Copy)]
pub enum Mark {
    Command,
    Address,
    Data,
}

// A byte of the bus with its mark.
#[derive(Clone, Copy)]
pub struct Cycle {
    pub mark: Mark,
    pub byte: u8,
}

impl Cycle {
    pub(crate) fn command(byte: u8) -> Cycle
        ensures { result ≡ command byte }
    {
        Cycle {
            mark: Mark::Command,
            byte,
        }
    }

    pub(crate) fn address(byte: u8) -> Cycle
        ensures { result ≡ address byte }
    {
        Cycle {
            mark: Mark::Address,
            byte,
        }
    }

    pub(crate) fn data(byte: u8) -> Cycle
        ensures { result ≡ data_byte byte }
    {
        Cycle {
            mark: Mark::Data,
            byte,
        }
    }
}

// What the chip does: nothing, with nothing or the status or a page to read; or a command up to its last byte.
#[derive(Clone, Copy, PartialEq, Eq)]
pub enum State {
    Idle,
    Status,
    Output,
    Read,
    Program,
    Erase,
}

// The register set: the state, how many address cycles came, the column and row that they gave, the page register, and
// whether the chip failed.
#[derive(Clone, Copy)]
pub struct Registers {
    pub state: State,
    pub cycles: u32,
    pub column: u32,
    pub row: u32,
    pub page: [u8; 256],
    pub failed: bool,
}

// Why a cycle or a step was not done, with its number: the image has a wrong size, the page a wrong length, the chip failed.
#[derive(Clone, Copy)]
pub enum Error {
    ImageSize = 1,
    PageLength = 6,
    Failed = 10,
}

// The registers after a cycle or a step, and the reply to it.
#[derive(Clone, Copy)]
pub struct Sent {
    pub registers: Registers,
    pub reply: Result<(), Error>,
}

// The registers after a byte was received, the byte, and the reply.
#[derive(Clone, Copy)]
pub struct Got {
    pub registers: Registers,
    pub byte: u8,
    pub reply: Result<(), Error>,
}
