// Rings.
ghost use Rattle.std.specs.Prelude.{◌≡◌, ◌≤◌, min, max, length, false, slice_index_or};
ghost use Rattle.rings.specs.Kept.{Quiet, Known};
ghost use Rattle.rings.specs.Order.{FirstWaiting};

use arbiter::{Arbiter, Refusal, fair_bound};

// Which sources wait, which was picked last, and how many sources there are. The flags stand in an array of 32 beside
// the width, which is known only at run time: a new ring takes no memory and cannot fail.
#[derive(Drop)]
pub struct Ring {
    waiting: [bool; 32],
    last: Option<usize>,
    width: usize,
    ghost least: { 1 ≤ width },
    ghost most: { width ≤ 32 },
    ghost quiet: { Quiet waiting width },
    ghost known: { Known last width },
    ghost full: { length waiting ≡ 32 },
}

fn first_true(flags: &[bool]) -> Option<usize>
    ensures { FirstWaiting (length flags.now) None (λ i. slice_index_or flags.now i false) result }
{
    flags.iter().position(|&flag| flag)
}

impl Ring {
    ghost use Rattle.rings.specs.Rings.{ring_waiting, NewRing};

    // A ring of n sources; 0 is taken as 1, and more than 32 as 32.
    pub fn new(n: usize) -> Ring
        ensures { NewRing (min (max n 1) 32) result }
    {
        Ring {
            waiting: [false; 32],
            last: None,
            width: n.clamp(1, 32),
        }
    }

    // The first waiting source in the order of turns, if any. From the width on nobody waits, and no flag is looked at.
    fn next(&self) -> Option<usize>
        ensures { FirstWaiting self.now.width self.now.last (ring_waiting self.now) result }
    {
        let start = self.last.map_or(0, |l| l + 1);
        let (before, from) = self.waiting[..self.width].split_at(start);
        match first_true(from) {
            Some(i) => Some(start + i),
            None => first_true(before),
        }
    }
}

impl Arbiter for Ring {
    ghost use Rattle.rings.specs.Rings.{ring};
    ghost use Rattle.rings.specs.RingLaws.{ring_lawful};

    ghost model = { ring };

    ghost lawful = { ring_lawful };

    fn width(&self) -> usize {
        self.width
    }

    fn waits(&self, s: usize) -> Result<bool, Refusal> {
        if s >= self.width {
            return Err(Refusal::Unknown);
        }
        Ok(self.waiting[s])
    }

    fn anyone(&self) -> bool {
        self.waiting.contains(&true)
    }

    fn post(&mut self, s: usize) -> Result<(), Refusal> {
        if s >= self.width {
            return Err(Refusal::Unknown);
        }
        if self.waiting[s] {
            return Err(Refusal::Waiting);
        }
        self.waiting[s] = true;
        Ok(())
    }

    fn pick(&mut self) -> Option<usize> {
        let s = self.next()?;
        self.waiting[s] = false;
        self.last = Some(s);
        Some(s)
    }

    fn bound(&self, s: usize, own: u64, counts: &[u64]) -> Result<u64, Refusal> {
        fair_bound(self.width, s, own, counts)
    }
}
