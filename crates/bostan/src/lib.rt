// The pile of arbiters in front of a memory bank of a Bostan cluster.
#![tactic(auto)]

ghost use Rattle.std.specs.Prelude.{◌≡◌, true};
ghost use Rattle.arbiter.specs.Laws.{Lawful};
ghost use Rattle.bostan.specs.Piles.{bostan, IsUnpicked, NewPile};
ghost use Rattle.bostan.specs.Worked.{WorkedBounds};

use layers::{Alternation, Precedence};
use rings::Ring;

// Sources: cores 0 to 15, network transmit 16, debug unit 17, resource manager 18, network receive 19.
pub type Pile = Precedence<Alternation<Ring, Ring>, Ring>;

// A ring of cores takes turns with a ring of units, and network receive goes before both.
// In a new pile nobody waits, nobody was picked, and its layers have not picked from a side yet.
pub fn pile() -> Pile
    ensures made { NewPile result }
    ensures unpicked { IsUnpicked result }
{
    Precedence::new(Alternation::new(Ring::new(16), Ring::new(3)), Ring::new(1))
}

// Always true; its promise is that the pile keeps the laws of arbiters, which names the definition of the pile as `arbiter::laws` cannot.
pub fn laws() -> bool
    ensures answer { result ≡ true }
    ensures lawful { Lawful bostan }
{
    arbiter::laws(&pile())
}

// Always true; its promise is two bounds worked out level by level.
pub fn worked_bounds() -> bool
    ensures answer { result ≡ true }
    ensures worked { WorkedBounds }
{
    true
}

#[cfg(test)]
mod tests {
    use super::pile;
    use arbiter::{Arbiter, Refusal};
    use layers::{Alternation, Precedence};
    use rings::Ring;
    use std::test::Fail;

    // Upwards from the source after the last picked, round to 0.
    #[test]
    fn ring_goes_round(rt: HostRuntime) -> Result<(), Fail> {
        let mut ring = Ring::new(3);
        ring.post(1)?;
        ring.post(0)?;
        assert_eq!(rt; ring.pick(), Some(0));
        ring.post(0)?;
        ring.post(2)?;
        assert_eq!(rt; ring.pick(), Some(1));
        assert_eq!(rt; ring.pick(), Some(2));
        assert_eq!(rt; ring.pick(), Some(0));
        assert_eq!(rt; ring.pick(), None);
        Ok(())
    }

    // At first left, then the side not picked from last, while both wait.
    #[test]
    fn alternation_takes_turns(rt: HostRuntime) -> Result<(), Fail> {
        let mut layer = Alternation::new(Ring::new(2), Ring::new(2));
        layer.post(3)?;
        layer.post(0)?;
        layer.post(1)?;
        assert_eq!(rt; layer.pick(), Some(0));
        assert_eq!(rt; layer.pick(), Some(3));
        assert_eq!(rt; layer.pick(), Some(1));
        assert_eq!(rt; layer.pick(), None);
        Ok(())
    }

    // Network receive goes first, and cores and units take turns.
    #[test]
    fn pile_serves_receive_first(rt: HostRuntime) -> Result<(), Fail> {
        let mut pile = pile();
        pile.post(1)?;
        pile.post(16)?;
        pile.post(0)?;
        pile.post(19)?;
        assert_eq!(rt; pile.pick(), Some(19));
        assert_eq!(rt; pile.pick(), Some(0));
        assert_eq!(rt; pile.pick(), Some(16));
        assert_eq!(rt; pile.pick(), Some(1));
        Ok(())
    }

    // With 33 sources a layer is its first side alone.
    #[test]
    fn too_wide_is_first_side(rt: HostRuntime) -> Result<(), Fail> {
        let mut layer = Precedence::new(Ring::new(20), Ring::new(13));
        assert_eq!(rt; layer.width(), 20);
        assert_eq!(rt; layer.post(20), Err(Refusal::Unknown));
        layer.post(19)?;
        assert_eq!(rt; layer.pick(), Some(19));
        Ok(())
    }
}
