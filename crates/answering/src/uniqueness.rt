// A sheet has one listing.
ghost use Rattle.std.specs.Prelude.{◌≡◌, true};
ghost use Rattle.answering.specs.Listings.{OneListing};

use analysis::plans_are_dated;
use bostan::Pile;
use rings::Ring;

// Always true; its promise is that a sheet has one listing. It follows from the theory of dates, for rings and for piles.
pub fn sheets_have_one_listing() -> bool
    ensures answer { result ≡ true }
    ensures one { OneListing }
{
    plans_are_dated::<Ring>();
    plans_are_dated::<Pile>();
    true
}
