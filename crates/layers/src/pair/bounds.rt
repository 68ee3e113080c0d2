// What the bounds of a pair are made of.
ghost use Rattle.std.specs.Prelude.{◌≡◌, ◌*◌, ◌≤◌, sum, IfOk};
ghost use Rattle.arbiter.specs.Answers.{bound_answer};
ghost use Rattle.arbiter.specs.Counts.{limit, AreCounts};
ghost use Rattle.layers.specs.Pairs.{pair_width};
ghost use Rattle.layers.specs.Bounds.{shifted, side_bound, other_side};

use super::Pair;
use arbiter::{Arbiter, Refusal, accept};

// The counts as the second side numbers them, behind n sources of the first.
fn shift(n: usize, counts: &[u64]) -> [u64; 32]
    requires { (n ≤ 32) × AreCounts counts.now }
    ensures { result ≡ shifted n counts.now }
{
    let mut moved = [0; 32];
    moved[..32 - n].copy_from_slice(&counts[n..]);
    moved
}

fn total(counts: &[u64]) -> u64
    requires { sum counts.now ≤ 32 * limit }
    ensures value { result ≡ sum counts.now }
    ensures few { result ≤ 32 * limit }
{
    counts.iter().sum()
}

impl<L: Arbiter, R: Arbiter> Pair<L, R> {
    // The bound of the side of s. Where it is accepted, a caller knows that it is small, and so are the counts.
    pub(crate) fn side_bound(&self, s: usize, own: u64, counts: &[u64]) -> Result<u64, Refusal>
        ensures answer { result ≡ bound_answer (pair_width L.model R.model self.now) (side_bound L.model R.model self.now) s own counts.now }
        ensures facts { IfOk result (λ b. (b ≤ 33 * limit) × AreCounts counts.now) }
    {
        accept(self.width(), s, own, counts)?;
        let n = self.first.width();
        if s < n {
            self.first.bound(s, own, counts)
        } else {
            self.second.bound(s - n, own, &shift(n, counts))
        }
    }

    // The accesses of the other side.
    pub(crate) fn other_side(&self, s: usize, counts: &[u64]) -> u64
        requires { AreCounts counts.now }
        ensures value { result ≡ other_side L.model R.model self.now s counts.now }
        ensures few { result ≤ 32 * limit }
    {
        let n = self.first.width();
        if s < n {
            total(&counts[n..self.width()])
        } else {
            total(&counts[..n])
        }
    }
}
