// The questions that every bound asks first.
ghost use Rattle.std.specs.Prelude.{◌≡◌, ◌<◌, ◌≤◌, OnOk};
ghost use Rattle.arbiter.specs.Counts.{limit, all_within, AreCounts};
ghost use Rattle.arbiter.specs.Answers.{accept_answer};

use crate::Refusal;

// The largest count: 256 tasks with 65,535 accesses each.
pub const LIMIT: u64 = 16_776_960;

fn within_limit(counts: &[u64]) -> bool
    ensures { result ≡ all_within counts.now }
{
    counts.iter().all(|&count| count <= LIMIT)
}

// Is s below the width, are there 32 counts, are own and all counts within the limit?
// Where they are, a caller knows each of these facts.
pub fn accept(width: usize, s: usize, own: u64, counts: &[u64]) -> Result<(), Refusal>
    ensures answer { result ≡ accept_answer width s own counts.now }
    ensures facts { OnOk result ((s < width) × (own ≤ limit) × AreCounts counts.now) }
{
    if s >= width {
        return Err(Refusal::Unknown);
    }
    if counts.len() != 32 {
        return Err(Refusal::Size);
    }
    if own > LIMIT || !within_limit(counts) {
        return Err(Refusal::Range);
    }
    Ok(())
}
