// When two grains of a cell touch, and what they then are.
ghost use Rattle.std.specs.Prelude.{◌≡◌};
ghost use Rattle.root.specs.Root.{root_of};
ghost use Rattle.root.specs.Rule.{number as rootNumber};
ghost use Rattle.model.specs.Collision as collision;
ghost use Rattle.model.specs.Reports.{contact_told, plan_told};
ghost use Rattle.cell.specs.Cell.{IsCell};

use cell::Cell;
use model::{Contact, Domain, Event, Particle, Pending, Plan, RootRefused};
use myvec::MyVec;

// The earlier solution, from the root of the discriminant d.
fn time_of(d: f64, a: f64, b: f64) -> Contact
    ensures result_value { contact_told result ≡ contact_told (collision.time_of d a b) }
    ensures result_value_2 { (contact_told result).0 ≡ rootNumber (root_of d) }
{
    let s = root::square_root(d).ok_or(RootRefused)?;
    let dt = (1.0 / a) * (-s - b);
    if dt < 0.0 { Ok(None) } else { Ok(Some(dt)) }
}

// How far apart two grains are that touch.
fn reach(p: Particle, q: Particle) -> f64
    ensures { result ≡ collision.reach p q }
{
    p.rad + q.rad
}

// When two grains touch that are dpos apart and whose velocities differ by dvel: a dt² + 2 b dt + c = 0.
fn contact(reach: f64, dpos: MyVec, dvel: MyVec) -> Contact
    ensures { contact_told result ≡ contact_told (collision.collide reach dpos dvel) }
{
    let a = dvel.dot(dvel);
    let b = dvel.dot(dpos);
    let c = dpos.dot(dpos) - reach * reach;
    let d = b * b - a * c;
    // their velocities are nearly equal, they move apart, they overlap, or they pass each other
    if a < f64::EPSILON || 0.0 <= b || c < 0.0 || d < 0.0 {
        return Ok(None);
    }
    time_of(d, a, b)
}

// The size of gravity in a wall-bounded direction, and the mean value that does not feel it.
const GRAVITY: f64 = 0.5;

const NEUTRAL_VAL: f64 = 0.5;

// Gravity in a direction, by whether it is periodic.
fn pull(periodic: bool) -> f64
    ensures { result ≡ collision.pull periodic }
{
    if periodic { 0.0 } else { -GRAVITY }
}

// What each of two velocities counts in that of the centre, and how much of their difference each grain has besides.
const CENTRE_FACTOR: f64 = 0.5;

// The velocity of the two together, with the gravity that their mean value feels.
fn centre(domain: Domain, p: Particle, q: Particle) -> MyVec
    ensures { result ≡ collision.centre domain p q }
{
    let gravity = MyVec::new(pull(domain.periodic0), pull(domain.periodic1));
    p.vel
        .times(CENTRE_FACTOR)
        .add(q.vel.times(CENTRE_FACTOR))
        .add(gravity.times(mean(p, q) - NEUTRAL_VAL))
}

// What each of two values counts in their mean.
const MEAN_FACTOR: f64 = 0.5;

fn mean(p: Particle, q: Particle) -> f64
    ensures { result ≡ collision.mean p q }
{
    MEAN_FACTOR * p.val + MEAN_FACTOR * q.val
}

// The difference of their velocities afterwards, n being the unit vector from the one to the other.
fn bounced(dvel: MyVec, n: MyVec) -> MyVec
    ensures { result ≡ collision.bounced dvel n }
{
    dvel.sub(n.times((1.0 + Event::RESTITUTION) * dvel.dot(n)))
}

// The unit vector from the one to the other at their new positions.
fn normal(domain: Domain, cell: Cell, reach: f64, x: MyVec, y: MyVec) -> MyVec
    requires { IsCell domain cell }
    ensures { result ≡ collision.normal domain cell.index reach x y }
{
    cell.apart(domain, y.sub(x)).over(reach)
}

// What is stored of the two after dt.
fn struck(domain: Domain, cell: Cell, i: u64, j: u64, p: Particle, q: Particle, dt: f64) -> Event
    requires { IsCell domain cell }
    ensures { result ≡ collision.struck domain cell.index i j p q dt }
{
    let p_pos = particle::get_new_pos(domain, p.pos, p.vel, dt);
    let q_pos = particle::get_new_pos(domain, q.pos, q.vel, dt);
    let gvel = centre(domain, p, q);
    let n = normal(domain, cell, reach(p, q), p_pos, q_pos);
    let dvel = bounced(q.vel.sub(p.vel), n).times(CENTRE_FACTOR);
    Event::InterParticleCollision {
        p: i,
        q: j,
        p_pos,
        q_pos,
        p_vel: gvel.sub(dvel),
        q_vel: gvel.add(dvel),
        val: mean(p, q),
    }
}

pub fn schedule(
    domain: Domain,
    time: f64,
    cell: Cell,
    i: u64,
    j: u64,
    p: Particle,
    q: Particle,
) -> Plan
    requires { IsCell domain cell }
    ensures { plan_told result ≡ plan_told (collision.collision domain time cell.index i j p q) }
{
    let dpos = cell.apart(domain, q.pos.sub(p.pos));
    let dvel = q.vel.sub(p.vel);
    let Some(dt) = contact(reach(p, q), dpos, dvel)? else {
        return Ok(None);
    };
    Ok(Some(Pending {
        time: time + dt,
        event: struck(domain, cell, i, j, p, q, dt),
    }))
}
