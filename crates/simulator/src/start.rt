// A start over the five lent tables: checks 1, 2 and 4, and then, accepted, what crate starting does.
ghost use Rattle.std.specs.Prelude.{◌≡◌, ◌≤◌};
ghost use Rattle.tables.specs.Decode.{tables};
ghost use Rattle.simulator.specs.Start.{fits as fitsIn, StartPromise};

use cell::Grid;
use layout::INPUT;
use model::{Domain, StartError};
use tables::Sizes;

// Check 2: are the counts in range, and the tables as long as they need?
fn fits(
    z: Sizes,
    inputs: usize,
    lists: usize,
    grains: usize,
    queue: usize,
    events: usize,
    order: usize,
) -> bool
    requires { z.cells ≤ 256 }
    ensures { result ≡ fitsIn z inputs lists grains queue events order }
{
    checks::counts_ok(z.grains as u64, z.room as u64)
        && z.grains * INPUT <= inputs
        && tables::lengths::long(z, lists, grains, queue, events, order)
}

// Refused by 1, 2 or 4, and nothing is changed; or accepted, halted or not.
pub fn start(
    domain: Domain,
    count: u64,
    room: u64,
    inputs: &[f64],
    lists: &mut [u64],
    grains: &mut [f64],
    queue: &mut [u64],
    events: &mut [f64],
    order: &mut [u8],
) -> Result<(), StartError>
    ensures { StartPromise domain count room inputs.now
        (tables lists.old grains.old queue.old events.old order.old) result
        (tables lists.new grains.new queue.new events.new order.new) }
{
    if !cell::box_ok(domain) {
        return Err(StartError::BoxOutOfRange);
    }
    let grid = Grid::new(domain);
    let z = Sizes {
        grains: count as usize,
        cells: grid.cells(),
        room: room as usize,
    };
    if !fits(
        z,
        inputs.len(),
        lists.len(),
        grains.len(),
        queue.len(),
        events.len(),
        order.len(),
    ) {
        return Err(StartError::TooShort);
    }
    if let Some(bad) = starting::inputs::first_bad(domain, inputs, z.grains) {
        return Err(StartError::BadGrain(bad as u64));
    }
    starting::begin(inputs, lists, grains, queue, events, order, z, domain, grid)?;
    Ok(())
}
