// Layers are lawful over any two arbiters, and a layer that is too wide is its first side alone.
// Two functions, as each names the layer that it promises this of.
ghost use Rattle.std.specs.Prelude.{◌≡◌, true};
ghost use Rattle.arbiter.specs.Laws.{Lawful};
ghost use Rattle.layers.specs.Alone.{AloneWhereTooWide};
ghost use Rattle.layers.specs.Alternations.{alternation};
ghost use Rattle.layers.specs.Precedences.{precedence};

use crate::{Alternation, Precedence};
use arbiter::{Arbiter, laws};

// Always true; its promise is that an alternation keeps the laws, whatever arbiters its sides are.
pub fn alternation_laws<L: Arbiter, R: Arbiter>(a: &Alternation<L, R>) -> bool
    ensures answer { result ≡ true }
    ensures lawful { Lawful (alternation L.model R.model) }
    ensures alone { AloneWhereTooWide L.model R.model (λ a. a.pair) (alternation L.model R.model) }
{
    laws(a)
}

// Always true; its promise is that a precedence keeps the laws, whatever arbiters its sides are.
pub fn precedence_laws<L: Arbiter, R: Arbiter>(p: &Precedence<L, R>) -> bool
    ensures answer { result ≡ true }
    ensures lawful { Lawful (precedence L.model R.model) }
    ensures alone { AloneWhereTooWide L.model R.model (λ a. a.pair) (precedence L.model R.model) }
{
    laws(p)
}
