// What one pass over the blocks finds for a mount: the blocks that it chooses, the covered sequence and the highest epoch.
ghost use Rattle.std.specs.Prelude.{◌≡◌, ◌%◌, length};
ghost use Rattle.image.specs.Size.{block_size, blocks};
ghost use Rattle.store.specs.Survey.{better_by, survey_next, survey_of};

use crate::{Kind, kinds};
use image::look;
use image::look::PAGES_IN_BLOCK;

// The foremost of the blocks passed: its epoch is highest, on a tie it is the lower one. Where there is none, the epoch is 0.
// Stays (1): no block has the epoch 0, so that of none is the lowest without a case of its own.
#[derive(Clone, Copy, Default)]
pub struct Best {
    pub at: Option<usize>,
    pub epoch: u32,
}

// What the blocks passed give: the commit block with the sequence that it covers, key blocks 0 and 1, and the highest epoch.
// Stays (2): the two key blocks are two fields, as in the numbers that are made of them.
#[derive(Clone, Copy, Default)]
pub struct Survey {
    pub commit: Best,
    pub covered: u32,
    pub keys0: Best,
    pub keys1: Best,
    pub highest: u32,
}

// The foremost with block b of this epoch.
fn better(best: Best, b: usize, epoch: u32) -> Best
    ensures { result ≡ better_by best b epoch }
{
    if best.epoch < epoch {
        return Best {
            at: Some(b),
            epoch: epoch,
        };
    }
    best
}

// One more block, b of this kind.
fn survey_next(s: Survey, b: usize, kind: Kind) -> Survey
    ensures { result ≡ survey_next s b kind }
{
    match kind {
        Kind::Keys(0, epoch) => Survey {
            keys0: better(s.keys0, b, epoch),
            highest: s.highest.max(epoch),
            ..s
        },
        Kind::Keys(1, epoch) => Survey {
            keys1: better(s.keys1, b, epoch),
            highest: s.highest.max(epoch),
            ..s
        },
        Kind::Commit(epoch, covered) => Survey {
            commit: better(s.commit, b, epoch),
            covered: if s.commit.epoch < epoch {
                covered
            } else {
                s.covered
            },
            highest: s.highest.max(epoch),
            ..s
        },
        Kind::Keys(_, _) => s,
        Kind::Other => s,
    }
}

// Passes over the blocks that begin with K or C, the only ones that can be whole; the kind of each is worked out once.
pub fn survey_blocks(image: &[u8]) -> Survey
    requires { length image.now % block_size ≡ 0 }
    ensures { result ≡ survey_of image.now (blocks image.now) }
{
    let mut s = Survey::default();
    for b in 0..look::blocks(image) {
        if kinds::is_block_letter(look::letter_at(image, b * PAGES_IN_BLOCK)) {
            s = survey_next(s, b, kinds::kind_of(image, b));
        }
    }
    s
}
