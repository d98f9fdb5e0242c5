// The working record that a mount makes: the pages are replayed, the deciding entries are tested, and the letters of
// the positions that are named become u.
ghost use Rattle.std.specs.Prelude.{◌≡◌, true, false, cond, not, ◌||◌, ℕ, ◌≤◌, ◌<◌, ◌+◌, ◌%◌, length, get_or, eqb, leb, MatchOption};
ghost use Rattle.base.specs.Search.{all_from};
ghost use Rattle.base.specs.Fold.{list_from};
ghost use Rattle.page.specs.Plan.{places};
ghost use Rattle.page.specs.Key.{positions};
ghost use Rattle.page.specs.Entry.{used_letter};
ghost use Rattle.image.specs.Size.{block_size, size_right};
ghost use Rattle.store.specs.Kind.{kind_of};
ghost use Rattle.store.specs.Record.{map_size, place_fits, named_times, keys_apart};
ghost use Rattle.store.specs.Testing.{run_length, Tallied};
ghost use Rattle.store.specs.Rebuild.{Rebuilding, Cleared, mount_fits, marks, Marked};

use crate::replay::{Scratch, Seen};
use crate::{Kind, fit, format, replay};
use page::keys::{Letters, POSITIONS};
use page::plan::{Map, PLACES};
use page::{bytes, entries};

// Whether place x fits, where its entry decides: the deciding sequence is 0.
fn entry_fits(image: &[u8], map: &Map, x: usize, sequence: u32) -> bool
    requires { (length image.now % block_size ≡ 0) × (x < places) }
    ensures { result ≡ not (eqb sequence 0) || place_fits image.now map.now x }
{
    if sequence != 0 {
        return true;
    }
    fit::place_fits(image, map, x)
}

// Whether every place of a run fits whose entry decides. A vacant run fits as a whole.
fn run_entries_fit(image: &[u8], map: &Map, scratch: &Scratch, from: usize) -> bool
    requires { (length image.now % block_size ≡ 0) × (from + run_length ≤ places) }
    ensures { result ≡ all_from (λ x. not (eqb (get_or scratch.now x 0) 0)
        || place_fits image.now map.now x) run_length from }
{
    if fit::is_vacant_run(map, from) {
        return true;
    }
    for x in from..from + fit::RUN_LENGTH {
        if !entry_fits(image, map, x, scratch[x]) {
            return false;
        }
    }
    true
}

// Whether every place fits whose entry decides.
// Stays (2): as `fit::file_fits`.
fn entries_fit(image: &[u8], map: &Map, scratch: &Scratch) -> bool
    requires { length image.now % block_size ≡ 0 }
    ensures { result
        ≡ all_from (λ x. not (eqb (get_or scratch.now x 0) 0) || place_fits image.now map.now x) places 0 }
{
    for x in (0..PLACES).step_by(fit::RUN_LENGTH) {
        if !run_entries_fit(image, map, scratch, x) {
            return false;
        }
    }
    true
}

// Makes the positions that the places of a run name used; false where one was used before. A vacant run names none.
fn use_run(map: &Map, letters: &mut Letters, from: usize) -> bool
    requires { (from + run_length ≤ places) × Tallied map.now (marks letters.old) from }
    ensures { (result ≡ true → Marked map.now letters.old letters.new (from + run_length))
        × (result ≡ false → keys_apart map.now ≡ false) }
{
    if fit::is_vacant_run(map, from) {
        return true;
    }
    for key in &map[PLACES + from..PLACES + from + fit::RUN_LENGTH] {
        if !fit::mark_key(letters, *key, entries::USED) {
            return false;
        }
    }
    true
}

// Makes the positions that the map names used, where none was; whether no key is named twice.
// Stays (2): as `fit::file_fits`.
fn use_keys(map: &Map, letters: &mut Letters) -> bool
    requires { (p : ℕ) → p < positions → get_or letters.old p 0 ≡ used_letter → ⊥ }
    ensures { (result ≡ keys_apart map.now) × (result ≡ true → letters.new
        ≡ list_from (λ p. cond (leb 1 (named_times map.now p)) used_letter (get_or letters.old p 0)) positions 0) }
{
    for x in (0..PLACES).step_by(fit::RUN_LENGTH) {
        if !use_run(map, letters, x) {
            return false;
        }
    }
    true
}

// Makes every place vacant, every position deleted and every deciding sequence 0.
pub fn clear_record(map: &mut Map, letters: &mut Letters, scratch: &mut Scratch)
    ensures { Cleared map.new letters.new scratch.new }
{
    format::clear_map(map);
    bytes::fill(letters, entries::DELETED);
    replay::clear_scratch(scratch);
}

// Replays the pages over the commit in block c, then tests what it gives.
fn replay_fit(
    image: &[u8],
    c: usize,
    covered: u32,
    map: &mut Map,
    letters: &mut Letters,
    scratch: &mut Scratch,
) -> Option<Seen>
    requires { (size_right image.now ≡ true) × ((e : ℕ) × (kind_of image.now c ≡ Kind.Commit e covered)) }
    ensures { MatchOption result (mount_fits image.now c ≡ false)
        (λ seen. Rebuilding image.now c map.new letters.new scratch.new seen) }
{
    let seen = replay::replay(image, c, covered, map, letters, scratch);
    if !entries_fit(image, map, scratch) {
        return None;
    }
    if !use_keys(map, letters) {
        return None;
    }
    Some(seen)
}

// Makes the record of the commit in block c and the pages, or clears it where that does not fit.
pub fn rebuild_record(
    image: &[u8],
    c: usize,
    covered: u32,
    map: &mut Map,
    letters: &mut Letters,
    scratch: &mut Scratch,
) -> Option<Seen>
    requires { (size_right image.now ≡ true) × ((e : ℕ) × (kind_of image.now c ≡ Kind.Commit e covered)) }
    ensures { MatchOption result ((mount_fits image.now c ≡ false) × Cleared map.new letters.new scratch.new)
        (λ seen. Rebuilding image.now c map.new letters.new scratch.new seen) }
{
    let rebuilt = replay_fit(image, c, covered, map, letters, scratch);
    if rebuilt.is_none() {
        clear_record(map, letters, scratch);
    }
    rebuilt
}
