// An arbiter whose two sides take turns.
ghost use Rattle.std.specs.Prelude.{◌≡◌};

use crate::pair::{Pair, Side};
use arbiter::{Arbiter, Refusal};

#[derive(Drop)]
pub struct Alternation<L, R> {
    pair: Pair<L, R>,
}

impl<L: Arbiter, R: Arbiter> Alternation<L, R> {
    ghost use Rattle.layers.specs.Alternations.{alternates, new_alternation};

    // The sides as they are, and none picked from yet.
    pub fn new(left: L, right: R) -> Alternation<L, R>
        ensures { result ≡ new_alternation left right }
    {
        Alternation {
            pair: Pair {
                first: left,
                second: right,
                latest: None,
            },
        }
    }

    // Is it left's turn?
    fn left_turn(&self) -> bool
        ensures { result ≡ alternates L.model R.model self.now.pair }
    {
        self.pair.first_waits()
            && !(self.pair.latest == Some(Side::First) && self.pair.second_waits())
    }
}

impl<L: Arbiter, R: Arbiter> Arbiter for Alternation<L, R> {
    ghost use Rattle.layers.specs.Alternations.{alternation};
    ghost use Rattle.layers.specs.MakeLaws.{alternation_keeps};

    ghost model = { alternation L.model R.model };

    ghost lawful = { alternation_keeps _ _ L.lawful R.lawful };

    fn width(&self) -> usize {
        self.pair.width()
    }

    fn waits(&self, s: usize) -> Result<bool, Refusal> {
        self.pair.waits(s)
    }

    fn anyone(&self) -> bool {
        self.pair.anyone()
    }

    fn post(&mut self, s: usize) -> Result<(), Refusal> {
        self.pair.post(s)
    }

    fn pick(&mut self) -> Option<usize> {
        let left = self.left_turn();
        self.pair.draw(left)
    }

    fn bound(&self, s: usize, own: u64, counts: &[u64]) -> Result<u64, Refusal> {
        let b = self.pair.side_bound(s, own, counts)?;
        let t = self.pair.other_side(s, counts);
        Ok(b + b.min(t))
    }
}
