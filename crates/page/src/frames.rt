// The frame of a page: its sizes, and the headers of each kind from their fields.
ghost use Rattle.std.specs.Prelude.{◌≡◌};
ghost use Rattle.page.specs.Header.{node_frame, cut_off_frame, keys_frame, commit_frame};

use crate::Frame;

// The bytes of a page, of its header and of its payload.
pub type Page = [u8; Frame::PAGE];

pub type Header = [u8; Frame::HEADER];

pub type Payload = [u8; Frame::PAYLOAD];

impl Frame {
    // The size of a page and of its header and payload, and where its closing starts.
    pub const PAGE: usize = 256;

    pub const HEADER: usize = 30;

    pub const PAYLOAD: usize = 224;

    // The longest payload of a node, as its header spells it.
    pub const LONGEST: u32 = 224;

    pub const CLOSING_AT: usize = 254;

    // Where the last four columns of a header's second number start.
    pub const SECOND_LAST_AT: usize = 24;

    // An erased byte.
    pub const ERASED: u8 = 0xff;

    // The kind letters.
    pub const NODE_LETTER: u8 = b'N';

    pub const CUT_OFF_LETTER: u8 = b'D';

    pub const KEYS_LETTER: u8 = b'K';

    pub const COMMIT_LETTER: u8 = b'C';

    pub fn node(sequence: u32, file: u32, offset: u32, key: u32, second: u32) -> Frame
        ensures { result ≡ node_frame sequence file offset key second }
    {
        Frame {
            kind: Frame::NODE_LETTER,
            number: sequence,
            unit: file,
            part: offset,
            key: key,
            second: second,
        }
    }

    pub fn cut_off(sequence: u32, file: u32, offset: u32) -> Frame
        ensures { result ≡ cut_off_frame sequence file offset }
    {
        Frame {
            kind: Frame::CUT_OFF_LETTER,
            number: sequence,
            unit: file,
            part: offset,
            key: 0,
            second: 0,
        }
    }

    pub fn keys(epoch: u32, block: u32, page: u32) -> Frame
        ensures { result ≡ keys_frame epoch block page }
    {
        Frame {
            kind: Frame::KEYS_LETTER,
            number: epoch,
            unit: block,
            part: page,
            key: 0,
            second: 0,
        }
    }

    pub fn commit(epoch: u32, part: u32, covered: u32) -> Frame
        ensures { result ≡ commit_frame epoch part covered }
    {
        Frame {
            kind: Frame::COMMIT_LETTER,
            number: epoch,
            unit: 0,
            part: part,
            key: 0,
            second: covered,
        }
    }
}
