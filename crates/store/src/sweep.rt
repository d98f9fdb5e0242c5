// The erases of a mount: every block that is neither chosen nor data, and every data block that no record reads any more.
// The erases of a commit go by a table of blocks too.
ghost use Rattle.std.specs.Prelude.{◌≡◌, ℕ, false, not, ◌||◌, [], ◌≤◌, ◌<◌, length, get_or};
ghost use Rattle.base.specs.Search.{which_from};
ghost use Rattle.image.specs.Size.{most_blocks, blocks};
ghost use Rattle.image.specs.Power.{device, run};
ghost use Rattle.store.specs.Kind.{is_chosen};
ghost use Rattle.store.specs.Record.{record_of};
ghost use Rattle.store.specs.Mount.{is_swept};
ghost use Rattle.store.specs.Rebuild.{Sweeping};
ghost use Rattle.store.specs.Stages.{erases};

use crate::kinds::{MOST_BLOCKS, Marks};
use crate::{Numbers, kinds, stages};
use image::{Power, look, steps};
use page::plan::Map;

// Marks the blocks that are chosen and those that the events mark, beside those that are marked.
fn keep(image: &[u8], events: &Marks, numbers: Numbers, kept: &mut Marks)
    requires { blocks image.now ≤ most_blocks }
    ensures { (b : ℕ) → b < blocks image.now → get_or kept.new b false
        ≡ (is_chosen numbers b || get_or events.now b false || get_or kept.old b false) }
{
    for b in 0..look::blocks(image) {
        kept[b] = kinds::is_chosen(numbers, b) | events[b] | kept[b];
    }
}

// Erases the blocks that are not marked, in order.
pub fn erase_unmarked(image: &mut [u8], kept: &Marks, p: Power) -> Power
    requires { blocks image.old ≤ most_blocks }
    ensures { device result image.new
        ≡ run (erases (which_from (λ b. not (get_or kept.now b false)) (blocks image.old) 0)) (device p image.old) }
{
    let mut q = p;
    for b in 0..look::blocks(image) {
        if !kept[b] {
            q = steps::erase_block(image, b, q);
        }
    }
    q
}

// Erases, in order, the blocks that are neither chosen nor data, and the data blocks without a live page whose events are
// all at or below the covered sequence. The events say of each block whether one above it stands there.
pub fn erase_swept(image: &mut [u8], map: &Map, events: &Marks, numbers: Numbers, p: Power) -> Power
    requires { Sweeping image.old map.now events.now numbers }
    ensures { device result image.new
        ≡ run (erases (which_from (is_swept image.old (record_of map.now [] numbers)) (blocks image.old) 0)) (device p
        image.old) }
{
    let mut kept = [false; MOST_BLOCKS];
    stages::mark_live(map, &mut kept);
    keep(image, events, numbers, &mut kept);
    erase_unmarked(image, &kept, p)
}
