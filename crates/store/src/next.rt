// The numbers of the record, and what calls make of them.
ghost use Rattle.std.specs.Prelude.{◌≡◌, ◌≤◌};
ghost use Rattle.page.specs.Header.{last_number};
ghost use Rattle.store.specs.Format.{no_numbers};
ghost use Rattle.store.specs.Write.{keys_block, next_sequence};
ghost use Rattle.store.specs.Commit.{with_keys, with_commit, next_epoch};

use crate::Numbers;

impl Numbers {
    // Those of a refused format or mount.
    // Stays (1): all 0 by the contracts of `format_cut` and `mount_cut` (`format_leaves`, `mount_leaves`), whose answer has
    // numbers in either case.
    pub fn none() -> Numbers
        ensures { result ≡ no_numbers }
    {
        Numbers {
            sequence: 0,
            epoch: 0,
            keys0: 0,
            keys1: 0,
            commit: 0,
        }
    }

    // The block of key block 0 or 1.
    pub fn keys_block(self, q: usize) -> u32
        ensures { result ≡ keys_block self q }
    {
        if q == 0 {
            return self.keys0;
        }
        self.keys1
    }

    // After a sequence was used.
    pub fn next_sequence(mut self) -> Numbers
        requires { self.sequence ≤ last_number }
        ensures { result ≡ next_sequence self }
    {
        self.sequence += 1;
        self
    }

    // After an epoch was used.
    pub fn next_epoch(mut self) -> Numbers
        requires { self.epoch ≤ last_number }
        ensures { result ≡ next_epoch self }
    {
        self.epoch += 1;
        self
    }

    // After key block q went to block b.
    pub fn with_keys(mut self, q: u32, b: u32) -> Numbers
        ensures { result ≡ with_keys self q b }
    {
        if q == 0 {
            self.keys0 = b;
            return self;
        }
        self.keys1 = b;
        self
    }

    // After the commit went to block b.
    pub fn with_commit(mut self, b: u32) -> Numbers
        ensures { result ≡ with_commit self b }
    {
        self.commit = b;
        self
    }
}
