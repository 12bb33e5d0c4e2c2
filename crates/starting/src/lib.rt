// An accepted start over the five lent tables: every place cleared, the headers, the grains one after another, the first events.
#![tactic(auto)]

ghost use Rattle.std.specs.Prelude.{length};
ghost use Rattle.model.specs.Start.{begin as beginIn};
ghost use Rattle.model.specs.Refusals.{number_of};
ghost use Rattle.halting.specs.Out.{each};
ghost use Rattle.model.specs.Doing.{init_cell};
ghost use Rattle.step.specs.World.{Some, Says, Does};
ghost use Rattle.tables.specs.Decode.{tables};
ghost use Rattle.tables.specs.Inputs.{inputs_of};
ghost use Rattle.starting.specs.Begin.{Filling, Filled, Startable, Began};

use acts::queue::Queues;
use cell::Grid;
use layout::{GRAINS_HEAD, LISTS_HEAD, ORDER};
use model::{Domain, Halt};
use step::{World, init};
use tables::{Sizes, headers};

mod clear;
mod entries;
mod grains;
pub mod inputs;

// The first events of each cell.
fn first_events(
    lists: &[u64],
    grains: &[f64],
    queue: &mut [u64],
    events: &mut [f64],
    order: &mut [u8],
    w: World,
) -> Result<(), Halt>
    requires { Some (Filled w lists.now grains.now queue.old events.old order.old) }
    ensures { Does (Filled w lists.now grains.now queue.old events.old order.old) (Filled w lists.now grains.now queue.new events.new order.new) (number_of result) (each init_cell w.sizes.cells 0) }
{
    let mut queues = Queues {
        queue,
        events,
        order,
    };
    init::init_events(lists, grains, &mut queues, w)
}

// The grains go in, then the first events of each cell. These tables are the parts behind the headers.
fn fill(
    inputs: &[f64],
    lists: &mut [u64],
    grains: &mut [f64],
    queue: &mut [u64],
    events: &mut [f64],
    order: &mut [u8],
    w: World,
) -> Result<(), Halt>
    requires { Filling w (length inputs.now) lists.old grains.old queue.old events.old order.old }
    ensures { Says (Filled w lists.new grains.new queue.new events.new order.new) (number_of result)
        (beginIn w.domain w.sizes.room (inputs_of w.sizes.grains inputs.now)) }
{
    grains::go_in(inputs, lists, grains, w)?;
    first_events(lists, grains, queue, events, order, w)
}

// An accepted start, up to the act that it halts at if it does, with the acts before it done and the mark set.
pub fn begin(
    inputs: &[f64],
    lists: &mut [u64],
    grains: &mut [f64],
    queue: &mut [u64],
    events: &mut [f64],
    order: &mut [u8],
    z: Sizes,
    domain: Domain,
    grid: Grid,
) -> Result<(), Halt>
    requires { Startable z domain grid (length inputs.now) (length lists.old) (length grains.old) (length queue.old) (length events.old) (length order.old) }
    ensures { Began (beginIn domain z.room (inputs_of z.grains inputs.now)) (number_of result)
        (tables lists.old grains.old queue.old events.old order.old)
        (tables lists.new grains.new queue.new events.new order.new) }
{
    clear::clear(lists, grains, queue, events, order, z, domain);
    let need = tables::lengths::needed(z);
    let w = World {
        sizes: z,
        domain,
        grid,
        clock: 0.0,
    };
    let result = fill(
        inputs,
        &mut lists[LISTS_HEAD..need.lists],
        &mut grains[GRAINS_HEAD..need.grains],
        &mut queue[..need.queue],
        &mut events[..need.events],
        &mut order[..ORDER],
        w,
    );
    headers::set_mark(lists, result.err().map_or(0, u64::from));
    result
}
