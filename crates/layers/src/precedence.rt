// An arbiter whose high side is served before its low side.
ghost use Rattle.std.specs.Prelude.{◌≡◌};

use crate::pair::Pair;
use arbiter::{Arbiter, Refusal};

#[derive(Drop)]
pub struct Precedence<L, R> {
    pair: Pair<L, R>,
}

impl<L: Arbiter, R: Arbiter> Precedence<L, R> {
    ghost use Rattle.layers.specs.Precedences.{new_precedence};

    // The sides as they are, and none picked from yet.
    pub fn new(low: L, high: R) -> Precedence<L, R>
        ensures { result ≡ new_precedence low high }
    {
        Precedence {
            pair: Pair {
                first: low,
                second: high,
                latest: None,
            },
        }
    }
}

impl<L: Arbiter, R: Arbiter> Arbiter for Precedence<L, R> {
    ghost use Rattle.layers.specs.Precedences.{precedence};
    ghost use Rattle.layers.specs.MakeLaws.{precedence_keeps};

    ghost model = { precedence L.model R.model };

    ghost lawful = { precedence_keeps _ _ L.lawful R.lawful };

    fn width(&self) -> usize {
        self.pair.width()
    }

    fn waits(&self, s: usize) -> Result<bool, Refusal> {
        self.pair.waits(s)
    }

    fn anyone(&self) -> bool {
        self.pair.anyone()
    }

    fn post(&mut self, s: usize) -> Result<(), Refusal> {
        self.pair.post(s)
    }

    fn pick(&mut self) -> Option<usize> {
        let low = !self.pair.second_waits();
        self.pair.draw(low)
    }

    fn bound(&self, s: usize, own: u64, counts: &[u64]) -> Result<u64, Refusal> {
        let b = self.pair.side_bound(s, own, counts)?;
        let t = self.pair.other_side(s, counts);
        if s >= self.pair.first.width() {
            Ok(b + own.min(t))
        } else if own == 0 {
            Ok(0)
        } else {
            Ok(b + t)
        }
    }
}
