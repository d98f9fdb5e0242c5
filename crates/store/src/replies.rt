// Replies and their numbers.
ghost use Rattle.std.specs.Prelude.{◌≡◌, cond, Err};
ghost use Rattle.store.specs.Reply.{Done, error_number, number_of};
ghost use Rattle.store.specs.Outcome.{answered};
ghost use Rattle.store.specs.declared.Error.TheVariants.{PowerCut};

use crate::{Answer, Error, Numbers};
use image::Power;

impl Error {
    // The documents' number of a refusal; 255 for a call that the power cut.
    pub fn number(self) -> u32
        ensures { result ≡ error_number self }
    {
        self as u32
    }
}

// Document 01's number of a reply.
pub fn number(r: Result<(), Error>) -> u32
    ensures { result ≡ number_of r }
{
    match r {
        Ok(()) => 0,
        Err(error) => error.number(),
    }
}

// The answer of a call that was taken: its reply by the power that is left, and the numbers of the record by now.
pub(crate) fn taken(p: Power, numbers: Numbers) -> Answer
    ensures { result ≡ answered (cond p.on Done (Err PowerCut)) numbers }
{
    let reply = if p.on { Ok(()) } else { Err(Error::PowerCut) };
    Answer { reply, numbers }
}

// The answer of a call that is refused: the record's numbers stay.
pub(crate) fn refused(error: Error, numbers: Numbers) -> Answer
    ensures { result ≡ answered (Err error) numbers }
{
    Answer {
        reply: Err(error),
        numbers,
    }
}
