// The box: whether its lengths are in range, and how many cells it has.
ghost use Rattle.std.specs.Prelude.{◌≡◌};
ghost use Rattle.model.specs.Check.{box_with};

use cell::Grid;
use model::Domain;

// Are both lengths in range, and has the box n cells?
pub fn boxed(domain: Domain, n: usize) -> bool
    ensures { result ≡ box_with domain n }
{
    cell::box_ok(domain) && Grid::new(domain).cells() == n
}
