ghost use Rattle.std.specs.Prelude.{◌≡◌};
ghost use Rattle.law.specs.Costs.{as_cost};

use field::Cost;

// The number as a cost, if it is not above the greatest one.
pub fn as_cost(number: u64) -> Option<Cost>
    ensures { result ≡ as_cost number }
{
    Cost::try_from(number).ok()
}
