// When windows end, and which overlap.
ghost use Rattle.std.specs.Prelude.{◌≡◌, ◌<◌, ◌&&◌, nat_lt};
ghost use Rattle.analysis.specs.Workings.{finish_in, release_in};

use crate::tables::Windows;

impl Windows {
    pub(crate) fn finish(&self, row: usize) -> u64
        requires { row < 256 }
        ensures { result ≡ finish_in self.now row }
    {
        self.releases.rows[row] + self.responses.rows[row]
    }

    // Is each of two rows released before the other's finish? Windows that only touch do not overlap.
    // The check asks it of rows of 32 bits, and knows nothing of these, which may still pass them: one function for both would convert each row twice.
    pub(crate) fn overlap(&self, i: usize, k: usize) -> bool
        requires i_known { i < 256 }
        requires k_known { k < 256 }
        ensures { result ≡ (nat_lt (release_in self.now i) (finish_in self.now k) && nat_lt (release_in self.now k) (finish_in self.now i)) }
    {
        self.releases.rows[i] < self.finish(k) && self.releases.rows[k] < self.finish(i)
    }
}
