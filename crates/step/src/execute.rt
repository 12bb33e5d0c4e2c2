// The five executions, in the orders of event.rs, and a step: the first event of all is executed.
ghost use Rattle.std.specs.Prelude.{◌≡◌, ◌<◌, ℕ};
ghost use Rattle.halting.specs.Out.{then, each_of};
ghost use Rattle.halting.specs.Every.{All};
ghost use Rattle.model.specs.Stepping.{landed, renewed as renewedIn};
ghost use Rattle.model.specs.State.{State, grain};
ghost use Rattle.model.specs.Acts.{store as storeAct};
ghost use Rattle.model.specs.Doing.{again as againIn, forget as forgetIn, do_collision, do_neighbour, do_out, do_wall, do_sync, execution as executeIn};
ghost use Rattle.model.specs.Execute.{head_event, event as eventIn};
ghost use Rattle.model.specs.Refusals.{number_of};
ghost use Rattle.tables.specs.Holds.{Ranged};
ghost use Rattle.acts.specs.Tell.{Pair, Grains, InGrains, GrainsTold, SameTables};
ghost use Rattle.step.specs.World.{Listing, Seen, Held, Some, Does, Apt, Steady, SameBox, is_sync};

use crate::{Stepped, World, schedule};
use acts::queue::Queues;
use acts::{links, store};
use model::{Event, Halt, Particle};
use myvec::MyVec;
use tables::Sizes;
use tables::grains::get_grain;

// ---- what an event gives a grain

// Its place, velocity and value at the clock; its radius stays.
fn renewed(grains: &[f64], w: World, p: usize, pos: MyVec, vel: MyVec, val: f64) -> Particle
    requires { Grains w.sizes grains.now × Ranged w.sizes × (p < w.sizes.grains) }
    ensures { (s : State) → InGrains w.sizes grains.now s → s.clock ≡ w.clock → result ≡ renewedIn pos vel s.clock val (grain s p) }
{
    Particle::new(pos, vel, w.clock, val, get_grain(grains, p).rad)
}

// ---- a collision, and a wall reflection

// A grain's events go in each cell that lists it.
fn forget(lists: &[u64], queues: &mut Queues, z: Sizes, p: usize)
    requires { Some (Listing z lists.now queues.old) × (p < z.grains) }
    ensures same { SameTables queues.old queues.new }
    ensures does { Does (Listing z lists.now queues.old) (Listing z lists.now queues.new) 0 (forgetIn p) }
{
    queues.cancel_each(z, links::cells_of(lists, z, p), p as u64)
}

// The events of these grains go in all their cells, one grain's after the other's, and are scheduled again there.
fn again_all(
    list: &[usize],
    lists: &[u64],
    grains: &mut [f64],
    queues: &mut Queues,
    w: World,
) -> Result<(), Halt>
    requires { Some (Held w lists.now grains.old queues.old) × All (λ (p : ℕ). p < w.sizes.grains) list.now }
    ensures same { SameTables queues.old queues.new }
    ensures does { Does (Held w lists.now grains.old queues.old) (Held w lists.now grains.new queues.new) (number_of result)
        (λ s. then (each_of forgetIn list.now s) (each_of againIn list.now)) }
{
    for &p in list {
        forget(lists, queues, w.sizes, p);
    }
    for &p in list {
        schedule::again(lists, grains, queues, w, p)?;
    }
    Ok(())
}

// Both grains are stored, their events go in all their cells, and are scheduled again there.
fn do_collision(
    lists: &[u64],
    grains: &mut [f64],
    queues: &mut Queues,
    w: World,
    p: usize,
    q: usize,
    x: Particle,
    y: Particle,
) -> Result<(), Halt>
    requires { Some (Held w lists.now grains.old queues.old) × (p < w.sizes.grains) × (q < w.sizes.grains) }
    ensures same { SameTables queues.old queues.new }
    ensures does { Does (Held w lists.now grains.old queues.old) (Held w lists.now grains.new queues.new) (number_of result) (do_collision p q x y) }
{
    store::store(grains, w.sizes, p, x)?;
    store::store(grains, w.sizes, q, y)?;
    again_all(&[p, q], lists, grains, queues, w)
}

// The grain is stored, its events go in all its cells, and are scheduled again there.
fn do_wall(
    lists: &[u64],
    grains: &mut [f64],
    queues: &mut Queues,
    w: World,
    p: usize,
    x: Particle,
) -> Result<(), Halt>
    requires { Some (Held w lists.now grains.old queues.old) × (p < w.sizes.grains) }
    ensures same { SameTables queues.old queues.new }
    ensures does { Does (Held w lists.now grains.old queues.old) (Held w lists.now grains.new queues.new) (number_of result) (do_wall p x) }
{
    store::store(grains, w.sizes, p, x)?;
    again_all(&[p], lists, grains, queues, w)
}

// ---- moves

// A grain gets its position at the clock.
fn land(grains: &mut [f64], w: World, p: usize, pos: MyVec) -> Result<(), Halt>
    requires { Grains w.sizes grains.old × Ranged w.sizes × (p < w.sizes.grains) }
    ensures { (s : State) → InGrains w.sizes grains.old s → s.clock ≡ w.clock
        → GrainsTold w.sizes grains.new (number_of result) (storeAct p (landed pos s.clock (grain s p)) s) }
{
    let a = get_grain(grains, p);
    store::store(grains, w.sizes, p, a.landed(pos, w.clock))
}

// The grain lands in a cell more, and its events there are scheduled.
fn do_neighbour(
    lists: &mut [u64],
    grains: &mut [f64],
    queues: &mut Queues,
    w: World,
    p: usize,
    pos: MyVec,
    cell: usize,
) -> Result<(), Halt>
    requires { Some (Held w lists.old grains.old queues.old) × (p < w.sizes.grains) × (cell < w.sizes.cells) }
    ensures same { SameTables queues.old queues.new }
    ensures does { Does (Held w lists.old grains.old queues.old) (Held w lists.new grains.new queues.new) (number_of result) (do_neighbour p pos cell) }
{
    land(grains, w, p, pos)?;
    links::enter(lists, w.sizes, p, cell)?;
    schedule::schedule_events(lists, grains, queues, w, p, cell)
}

// The grain lands, its events in a cell go, and it leaves the cell.
fn do_out(
    lists: &mut [u64],
    grains: &mut [f64],
    queues: &mut Queues,
    w: World,
    p: usize,
    pos: MyVec,
    cell: usize,
) -> Result<(), Halt>
    requires { Some (λ s. Held w lists.old grains.old queues.old s × Pair p cell s) × (p < w.sizes.grains) × (cell < w.sizes.cells) }
    ensures same { SameTables queues.old queues.new }
    ensures does { Does (λ s. Held w lists.old grains.old queues.old s × Pair p cell s)
        (Held w lists.new grains.new queues.new) (number_of result) (do_out p pos cell) }
{
    land(grains, w, p, pos)?;
    queues.cancel(w.sizes, cell, p as u64);
    links::leave(lists, w.sizes, p, cell)
}

// ---- a synchronisation

// All grains step to the clock, and the next synchronisation comes in.
fn do_sync(grains: &mut [f64], queues: &mut Queues, w: World, rate: f64) -> Result<(), Halt>
    requires { Some (Seen w grains.old queues.old) × (0 < w.sizes.cells) }
    ensures same { SameTables queues.old queues.new }
    ensures does { Does (Seen w grains.old queues.old) (Seen w grains.new queues.new) (number_of result) (do_sync rate) }
{
    store::step_all(grains, w.sizes, w.domain, w.clock)?;
    let next = tables::places::place_of(event::synchronisation::schedule(w.clock + rate));
    queues.insert(w.sizes, 0, next)
}

// ---- any of them

// What the event's kind does, at the clock.
fn execute(
    lists: &mut [u64],
    grains: &mut [f64],
    queues: &mut Queues,
    w: World,
    rate: f64,
    e: Event,
) -> Result<(), Halt>
    requires { Some (λ s. Held w lists.old grains.old queues.old s × Apt w.sizes e s) }
    ensures same { SameTables queues.old queues.new }
    ensures does { Does (λ s. Held w lists.old grains.old queues.old s × Apt w.sizes e s)
        (Held w lists.new grains.new queues.new) (number_of result) (executeIn rate e) }
{
    match e {
        Event::InterParticleCollision {
            p,
            q,
            p_pos,
            q_pos,
            p_vel,
            q_vel,
            val,
        } => {
            let p = p as usize;
            let q = q as usize;
            let x = renewed(grains, w, p, p_pos, p_vel, val);
            let y = renewed(grains, w, q, q_pos, q_vel, val);
            do_collision(lists, grains, queues, w, p, q, x, y)
        }
        Event::MoveToNeighbour { p, pos, cell } => do_neighbour(
            lists,
            grains,
            queues,
            w,
            p as usize,
            pos,
            cell as usize,
        ),
        Event::MoveOutOfCell { p, pos, cell } => {
            do_out(lists, grains, queues, w, p as usize, pos, cell as usize)
        }
        Event::WallReflection { p, pos, vel, val } => {
            let p = p as usize;
            let x = renewed(grains, w, p, pos, vel, val);
            do_wall(lists, grains, queues, w, p, x)
        }
        Event::Synchronisation => do_sync(grains, queues, w, rate),
    }
}

// ---- a step

// Whether it is a synchronisation.
fn is_sync(e: Event) -> bool
    ensures { result ≡ is_sync e }
{
    matches!(e, Event::Synchronisation)
}

// The first event of all is removed, the clock is its time, and it is executed. A halt's mark is the caller's to write.
pub fn step(
    lists: &mut [u64],
    grains: &mut [f64],
    queues: &mut Queues,
    w: &mut World,
    rate: f64,
) -> Stepped
    requires { Some (Steady w.old lists.old grains.old queues.old) }
    ensures same { SameTables queues.old queues.new }
    ensures world { SameBox w.old w.new }
    ensures does { Does (Steady w.old lists.old grains.old queues.old) (Held w.new lists.new grains.new queues.new) (number_of result.done) (eventIn rate) }
    ensures kind { (s : State) → Steady w.old lists.old grains.old queues.old s → result.sync ≡ is_sync (head_event s) }
{
    let cell = queues.order[0] as usize;
    let place = queues.take(w.sizes, cell);
    let e = tables::places::event_of(place);
    w.clock = place.time;
    let done = execute(lists, grains, queues, *w, rate, e);
    Stepped {
        done,
        sync: is_sync(e),
    }
}
