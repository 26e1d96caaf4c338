// What a bisection costs.
ghost use Rattle.std.specs.Prelude.{◌≡◌};
ghost use Rattle.parish.specs.View.{view};
ghost use Rattle.parish.specs.Edits.{answered};
ghost use Rattle.bisection.specs.Lots.{lots_table};
ghost use Rattle.bisection.specs.Costs.{cost};

use super::lots::check_lots;
use parish::{Parish, Refusal};

// The summed strength of the links whose ends lie in different lots.
pub fn cost(parish: &Parish, lots: &[u8]) -> Result<u32, Refusal>
    ensures { result ≡ answered (lots_table (view parish.now) lots.now) (cost (view parish.now) lots.now) }
{
    check_lots(parish, lots)?;
    let mut sum = 0;
    for link in parish.links() {
        if lots[link.from] != lots[link.to] {
            sum += link.strength;
        }
    }
    Ok(sum)
}
