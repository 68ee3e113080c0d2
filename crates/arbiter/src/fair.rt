// The bound of arbiters that serve no other source twice while a source waits.
ghost use Rattle.std.specs.Prelude.{◌≡◌, ◌≤◌};
ghost use Rattle.arbiter.specs.Counts.{limit, AreCounts};
ghost use Rattle.arbiter.specs.Answers.{bound_answer};
ghost use Rattle.arbiter.specs.Fair.{fair_bound};

use crate::{Refusal, accept};

// Each source but s adds its accesses, but at most one for each own access.
fn fair_sum(width: usize, s: usize, own: u64, counts: &[u64]) -> u64
    requires { (own ≤ limit) × AreCounts counts.now }
    ensures { result ≡ fair_bound width s own counts.now }
{
    let mut sum = own;
    for (o, &count) in counts[..width.min(32)].iter().enumerate() {
        if o != s {
            sum += count.min(own);
        }
    }
    sum
}

pub fn fair_bound(width: usize, s: usize, own: u64, counts: &[u64]) -> Result<u64, Refusal>
    ensures { result ≡ bound_answer width (fair_bound width) s own counts.now }
{
    accept(width, s, own, counts)?;
    Ok(fair_sum(width, s, own, counts))
}
