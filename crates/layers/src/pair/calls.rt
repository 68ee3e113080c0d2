// The questions, posts and picks of a pair.
ghost use Rattle.std.specs.Prelude.{◌≡◌};
ghost use Rattle.arbiter.specs.Answers.{waits_answer, someone, post_answer};
ghost use Rattle.layers.specs.Pairs.{fits, pair_width, pair_waiting, first_waits, second_waits, AfterPairPost, AfterDraw};

use super::{Pair, Side};
use arbiter::{Arbiter, Refusal};

impl<L: Arbiter, R: Arbiter> Pair<L, R> {
    // Are there at most 32 sources in all? Otherwise the pair is its first side alone.
    pub(crate) fn fits(&self) -> bool
        ensures { result ≡ fits L.model R.model self.now }
    {
        self.first.width() + self.second.width() <= 32
    }

    pub(crate) fn width(&self) -> usize
        ensures { result ≡ pair_width L.model R.model self.now }
    {
        let n = self.first.width();
        if self.fits() {
            n + self.second.width()
        } else {
            n
        }
    }

    pub(crate) fn waits(&self, s: usize) -> Result<bool, Refusal>
        ensures { result ≡ waits_answer (pair_width L.model R.model self.now) (pair_waiting L.model R.model self.now) s }
    {
        let n = self.first.width();
        if s < n {
            self.first.waits(s)
        } else if self.fits() {
            self.second.waits(s - n)
        } else {
            Err(Refusal::Unknown)
        }
    }

    pub(crate) fn first_waits(&self) -> bool
        ensures { result ≡ first_waits L.model R.model self.now }
    {
        self.first.anyone()
    }

    pub(crate) fn second_waits(&self) -> bool
        ensures { result ≡ second_waits L.model R.model self.now }
    {
        self.fits() && self.second.anyone()
    }

    pub(crate) fn anyone(&self) -> bool
        ensures { result ≡ someone (pair_width L.model R.model self.now) (pair_waiting L.model R.model self.now) }
    {
        self.first_waits() || self.second_waits()
    }

    pub(crate) fn post(&mut self, s: usize) -> Result<(), Refusal>
        ensures answer { result ≡ post_answer (pair_width L.model R.model self.old) (pair_waiting L.model R.model self.old) s }
        ensures state { AfterPairPost L.model R.model self.old s self.new result }
    {
        let n = self.first.width();
        if s < n {
            self.first.post(s)
        } else if self.fits() {
            self.second.post(s - n)
        } else {
            Err(Refusal::Unknown)
        }
    }

    // A pick from the first side, or from the second. A yes or no, and no Side: the layers' rules answer so, in code and definitions.
    pub(crate) fn draw(&mut self, first: bool) -> Option<usize>
        ensures { AfterDraw L.model R.model first self.old self.new result }
    {
        if first {
            let o = self.first.pick()?;
            self.latest = Some(Side::First);
            return Some(o);
        }
        if !self.fits() {
            return None;
        }
        let n = self.first.width();
        let o = self.second.pick()?;
        self.latest = Some(Side::Second);
        Some(n + o)
    }
}
