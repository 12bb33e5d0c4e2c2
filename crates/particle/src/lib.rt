// A grain: where it is after a time, whether its numbers may be stored or started, and the cells that it touches.
#![tactic(auto)]

ghost use Rattle.std.specs.Prelude.{◌≡◌, ◌&&◌, ◌≤◌};
ghost use Rattle.std.specs.Float.Ieee.Scale.{finite};
ghost use Rattle.order.specs.Numbers.{max_of, min_of};
ghost use Rattle.model.specs.Stepping as stepping;
ghost use Rattle.model.specs.Events.{fine_v};
ghost use Rattle.model.specs.Acts.{fine_grain};
ghost use Rattle.model.specs.Sizes.{place_ok, speed_ok, grain_ok};
ghost use Rattle.particle.specs.Spans.{span_of, spans_of};
ghost use Rattle.particle.specs.Spans as spans;

use model::{Domain, Particle};
use myvec::MyVec;

// ---- stepping

// Below 0 the length is added once, above it subtracted once.
fn wrapped(length: f64, x: f64) -> f64
    ensures { result ≡ stepping.wrapped length x }
{
    if x < 0.0 {
        x + length
    } else if length < x {
        x - length
    } else {
        x
    }
}

// Where a grain is after dt.
#[tactic(auto, unfolding(model::specs::Stepping::new_pos))]
pub fn get_new_pos(domain: Domain, pos: MyVec, vel: MyVec, dt: f64) -> MyVec
    ensures { result ≡ stepping.new_pos domain pos vel dt }
{
    let new_pos = pos.add(vel.scaled(dt));
    MyVec::new(
        wrapped(domain.lengths.x, new_pos.x),
        wrapped(domain.lengths.y, new_pos.y),
    )
}

// A grain stepped to a time.
pub fn stepped(domain: Domain, time: f64, p: Particle) -> Particle
    ensures { result ≡ stepping.stepped domain time p }
{
    p.landed(get_new_pos(domain, p.pos, p.vel, time - p.time), time)
}

// ---- what may be stored

pub fn is_finite(x: f64) -> bool
    ensures { result ≡ finite x }
{
    x - x == 0.0
}

pub fn fine_vec(v: MyVec) -> bool
    ensures { result ≡ fine_v v }
{
    is_finite(v.x) && is_finite(v.y)
}

// Whether all numbers of a grain are finite: refusal 5 where not.
#[tactic(auto, unfolding(model::specs::Acts::fine_grain))]
pub fn fine_grain(p: Particle) -> bool
    ensures { result ≡ fine_grain p }
{
    fine_vec(p.pos) && fine_vec(p.vel) && is_finite(p.time) && is_finite(p.val) && is_finite(p.rad)
}

// ---- what may be started

// Whether a grain's start position is in range in a direction.
fn place_ok(domain: Domain, dim: usize, p: Particle) -> bool
    ensures { result ≡ place_ok dim domain p }
{
    let length = domain.lengths.along(dim);
    let x = p.pos.along(dim);
    if domain.periodic(dim) {
        cell::within(0.0, length, x)
    } else {
        cell::within(p.rad, length - p.rad, x)
    }
}

fn pos_ok(domain: Domain, p: Particle) -> bool
    ensures { result ≡ (place_ok 0 domain p && place_ok 1 domain p) }
{
    place_ok(domain, 0, p) && place_ok(domain, 1, p)
}

// The fastest start in a direction, either way.
const FASTEST: f64 = 1024.0;

fn vel_ok(vel: MyVec) -> bool
    ensures { result ≡ (speed_ok vel.x && speed_ok vel.y) }
{
    cell::within(-FASTEST, FASTEST, vel.x) && cell::within(-FASTEST, FASTEST, vel.y)
}

// The range of a value.
const LEAST_VAL: f64 = 0.0;

const GREATEST_VAL: f64 = 1.0;

// Whether all start numbers of a grain are in range: refusal 4 where not.
pub fn grain_ok(domain: Domain, p: Particle) -> bool
    ensures { result ≡ grain_ok domain p }
{
    pos_ok(domain, p)
        && vel_ok(p.vel)
        && cell::within(LEAST_VAL, GREATEST_VAL, p.val)
        && cell::within(Particle::LEAST_RADIUS, Particle::GREATEST_RADIUS, p.rad)
}

// ---- from_p_to_c

// The larger and the smaller of two.
fn larger(a: f64, b: f64) -> f64
    ensures { result ≡ max_of a b }
{
    if a < b { b } else { a }
}

fn smaller(a: f64, b: f64) -> f64
    ensures { result ≡ min_of a b }
{
    if b < a { b } else { a }
}

// Cells of one direction, from lo to below hi.
#[derive(Clone, Copy, Debug, PartialEq, Eq)]
pub struct Span {
    pub lo: usize,
    pub hi: usize,
}

// Of n cells in a length, those that reach from min to max.
fn kernel(length: f64, n: usize, min: f64, max: f64) -> Span
    requires { n ≤ 256 }
    ensures { result ≡ span_of length n min max }
{
    let ncells = cell::count(n);
    let width = length / ncells;
    Span {
        lo: cell::cut(larger(min / width, 0.0)),
        hi: cell::cut(smaller(max / width + 1.0, ncells)),
    }
}

// Two spans of cells, one after the other.
#[derive(Clone, Copy, Debug, PartialEq, Eq)]
pub struct Spans {
    pub first: Span,
    pub second: Span,
}

impl Spans {
    // One span, and an empty one behind it.
    fn alone(span: Span) -> Self
        ensures { result ≡ spans.alone span }
    {
        Self {
            first: span,
            second: Span {
                lo: span.hi,
                hi: span.hi,
            },
        }
    }
}

// The cells of one direction that a grain of radius rad at pos touches, those at the low edge first where it lies across both.
#[tactic(auto, unfolding(crate::specs::Spans::spans_of))]
pub fn touched(length: f64, n: usize, rad: f64, pos: f64) -> Spans
    requires { n ≤ 256 }
    ensures { result ≡ spans_of length n rad pos }
{
    let min = pos - rad;
    let max = pos + rad;
    if min < 0.0 {
        Spans {
            first: kernel(length, n, 0.0, max),
            second: kernel(length, n, length + min, length),
        }
    } else if length < max {
        Spans {
            first: kernel(length, n, 0.0, max - length),
            second: kernel(length, n, min, length),
        }
    } else {
        Spans::alone(kernel(length, n, min, max))
    }
}
