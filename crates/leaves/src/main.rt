// Compares single schedulings, steppings, the cells that a grain touches and boxes with the oracle's answers (tools/vectors). Standard input has a
// section for each: how many cases, and then their words. Writes, for each section, how many were compared and how many differ.
//
// A case, and what is to be found; BOX is l0 l1 p0 p1 clock cell, and GRAIN is x y vx vy val rad:
//
//   collisions              BOX GRAIN GRAIN     the distance and the velocity difference, two floats each; PLAN
//   neighbours outs walls   BOX dim GRAIN       PLAN
//   steppings               l0 l1 x y vx vy dt  x y
//   cells                   l0 l1 x y rad       how many, and which
//   boxes                   l0 l1               1 where it refuses the box, otherwise 0
//
// PLAN is 0 for no event, 5 for a refusal or an event that may not be stored, or 1 and the fourteen words of the event's place.
#![tactic(auto)]

ghost use Rattle.std.specs.Prelude.{◌≡◌, true, ◌≤◌, length};
ghost use Rattle.cell.specs.Cell.{IsCell};
ghost use Rattle.leaves.specs.Tested.{Short, Small};

use cell::{Cell, Grid};
use event::{inter_particle_collision, move_out_of_cell, move_to_neighbour, wall_reflection};
use model::{Bound, Domain, Halt, Particle, Pending, Place, Plan};
use myvec::MyVec;
use particle::{Span, Spans};
use std::io::{Stdin, Stdout};
use tables::places;
use text::{bits_of_float, float_of_bits};

// ---- words, and what they stand for

fn vec(x: u64, y: u64) -> MyVec {
    MyVec::new(float_of_bits(x), float_of_bits(y))
}

fn bits_of_vec(v: MyVec) -> [u64; 2] {
    [bits_of_float(v.x), bits_of_float(v.y)]
}

// A grain, stepped to the clock.
fn grain(words: [u64; 6], clock: f64) -> Particle {
    let [x, y, vx, vy, val, rad] = words;
    Particle::new(
        vec(x, y),
        vec(vx, vy),
        clock,
        float_of_bits(val),
        float_of_bits(rad),
    )
}

// A box, the clock, and a cell of the box.
#[derive(Clone, Copy)]
struct Setting {
    domain: Domain,
    clock: f64,
    cell: Cell,
    ghost of_box: { IsCell domain cell },
}

// Nothing where a flag is neither 0 nor 1, the box is out of range, or it has no such cell.
fn setting_of(words: [u64; 6]) -> Option<Setting> {
    let [l0, l1, p0, p1, clock, index] = words;
    if p0 > 1 || p1 > 1 {
        return None;
    }
    let domain = Domain::new(vec(l0, l1), p0 == 1, p1 == 1);
    if !cell::box_ok(domain) {
        return None;
    }
    let grid = Grid::new(domain);
    let cells = grid.cells();
    if index >= cells as u64 {
        return None;
    }
    Some(Setting {
        domain,
        clock: float_of_bits(clock),
        cell: Cell::new(domain, grid, index as usize),
    })
}

// ---- what was planned

// What is told of a plan: the words of its event's place.
type Told = Result<Option<[u64; 14]>, Halt>;

fn words_of_place(s: Place) -> [u64; 14] {
    let [ax, ay] = bits_of_vec(s.a);
    let [bx, by] = bits_of_vec(s.b);
    let [cx, cy] = bits_of_vec(s.c);
    let [dx, dy] = bits_of_vec(s.d);
    let time = bits_of_float(s.time);
    let val = bits_of_float(s.val);
    [
        s.kind, s.p, s.q, s.cell, time, ax, ay, bx, by, cx, cy, dx, dy, val,
    ]
}

fn told(plan: Plan) -> Told {
    let Some(e) = plan? else {
        return Ok(None);
    };
    let place = places::place_of(e);
    if places::fine_place(place) {
        Ok(Some(words_of_place(place)))
    } else {
        Err(Halt::NotFinite)
    }
}

// What is to be told; nothing where the words say none of it.
fn wanted(input: Stdin) -> Option<Told> {
    match words::next(input)? {
        0 => Some(Ok(None)),
        1 => Some(Ok(Some(words::array(input)?))),
        5 => Some(Err(Halt::NotFinite)),
        _ => None,
    }
}

// ---- one case of each section: whether what is wanted was found; nothing where its words are none

#[derive(Clone, Copy)]
struct Collision {
    setting: [u64; 6],
    p: [u64; 6],
    q: [u64; 6],
    distance: [u64; 2],
    difference: [u64; 2],
}

impl Collision {
    fn read(input: Stdin) -> Option<Self> {
        let setting = words::array(input)?;
        let p = words::array(input)?;
        let q = words::array(input)?;
        let distance = words::array(input)?;
        let difference = words::array(input)?;
        Some(Self {
            setting,
            p,
            q,
            distance,
            difference,
        })
    }
}

fn collision_holds(input: Stdin) -> Option<bool> {
    let case = Collision::read(input);
    let want = wanted(input)?;
    let case = case?;
    let Setting {
        domain,
        clock,
        cell,
    } = setting_of(case.setting)?;
    let p = grain(case.p, clock);
    let q = grain(case.q, clock);
    let plan = inter_particle_collision::schedule(domain, clock, cell, 0, 1, p, q);
    Some(
        bits_of_vec(cell.apart(domain, q.pos.sub(p.pos))) == case.distance
            && bits_of_vec(q.vel.sub(p.vel)) == case.difference
            && told(plan) == want,
    )
}

#[derive(Clone, Copy)]
struct Crossing {
    setting: [u64; 6],
    dim: u64,
    p: [u64; 6],
}

impl Crossing {
    fn read(input: Stdin) -> Option<Self> {
        let setting = words::array(input)?;
        let dim = words::next(input)?;
        let p = words::array(input)?;
        Some(Self { setting, dim, p })
    }
}

// One of the three that can happen to a grain at a cell's bounds.
fn crossing_holds<F: Fn(Setting, usize, Particle) -> Option<Pending>>(
    input: Stdin,
    schedule: F,
) -> Option<bool>
    requires { F.IsAlwaysCallable schedule }
{
    let case = Crossing::read(input);
    let want = wanted(input)?;
    let case = case?;
    let setting = setting_of(case.setting)?;
    if case.dim > 1 {
        return None;
    }
    let found = schedule(setting, case.dim as usize, grain(case.p, setting.clock));
    Some(told(Ok(found)) == want)
}

fn neighbour_holds(input: Stdin) -> Option<bool> {
    crossing_holds(
        input,
        |s, dim, p| move_to_neighbour::schedule(s.domain, s.clock, s.cell, dim, 0, p),
    )
}

fn out_holds(input: Stdin) -> Option<bool> {
    crossing_holds(
        input,
        |s, dim, p| move_out_of_cell::schedule(s.domain, s.clock, s.cell, dim, 0, p),
    )
}

fn wall_holds(input: Stdin) -> Option<bool> {
    crossing_holds(
        input,
        |s, dim, p| wall_reflection::schedule(s.domain, s.clock, s.cell, dim, 0, p),
    )
}

fn stepping_holds(input: Stdin) -> Option<bool> {
    let [l0, l1, x, y, vx, vy, dt, new_x, new_y] = words::array::<9>(input)?;
    let domain = Domain::new(vec(l0, l1), true, true);
    let pos = particle::get_new_pos(domain, vec(x, y), vec(vx, vy), float_of_bits(dt));
    Some(bits_of_vec(pos) == [new_x, new_y])
}

// Whether a span is in order and short.
fn short(s: Span) -> bool
    ensures { result ≡ true → Short s }
{
    s.lo <= s.hi && s.hi <= 16
}

fn small(s: Spans) -> bool
    ensures { result ≡ true → Small s }
{
    short(s.first) && short(s.second)
}

// How many cells spans have.
fn many(s: Spans) -> usize
    requires { Small s }
    ensures { result ≤ 32 }
{
    s.first.hi - s.first.lo + (s.second.hi - s.second.lo)
}

// The cell at k, one span after the other.
fn cell_at(s: Spans, k: usize) -> usize
    requires { Small s × (k ≤ 32) }
    ensures { result ≤ 48 }
{
    let first = s.first.hi - s.first.lo;
    if k < first {
        s.first.lo + k
    } else {
        s.second.lo + (k - first)
    }
}

// Whether the cells of the spans x in direction 0, running fastest, and y in direction 1 are those wanted.
fn same_cells(n0: usize, x: Spans, y: Spans, wanted: &[u64]) -> bool
    requires small_x { Small x }
    requires small_y { Small y }
    requires across { n0 ≤ 16 }
    requires few { length wanted.now ≤ 4 }
{
    let across = many(x);
    if across == 0 || across * many(y) != wanted.len() {
        return false;
    }
    for (k, &cell) in wanted.iter().enumerate() {
        let found = cell_at(x, k % across) + n0 * cell_at(y, k / across);
        if found as u64 != cell {
            return false;
        }
    }
    true
}

fn cells_hold(input: Stdin) -> Option<bool> {
    let [l0, l1, x, y, rad, n] = words::array::<6>(input)?;
    if n > 4 {
        return None;
    }
    let n = n as usize;
    let mut cells = [0; 4];
    words::fill(input, &mut cells[..n])?;
    let domain = Domain::new(vec(l0, l1), true, true);
    if !cell::box_ok(domain) {
        return None;
    }
    let grid = Grid::new(domain);
    let rad = float_of_bits(rad);
    let x = particle::touched(domain.lengths.x, grid.n0, rad, float_of_bits(x));
    let y = particle::touched(domain.lengths.y, grid.n1, rad, float_of_bits(y));
    if !small(x) || !small(y) {
        return None;
    }
    Some(same_cells(grid.n0, x, y, &cells[..n]))
}

fn box_holds(input: Stdin) -> Option<bool> {
    let [l0, l1, refused] = words::array::<3>(input)?;
    let ok = cell::box_ok(Domain::new(vec(l0, l1), true, true));
    Some(refused == u64::from(!ok))
}

// ---- the sections

fn section<F: Fn(Stdin) -> Option<bool>>(input: Stdin, out: Stdout, what: &str, holds: F)
    requires { F.IsAlwaysCallable holds }
{
    let Some(cases) = words::next(input).filter(|&n| n <= 1000000) else {
        words::report(out, 0, what, 1);
        return;
    };
    let mut differ = 0;
    for _ in 0..cases {
        if holds(input) != Some(true) {
            differ += 1;
        }
    }
    words::report(out, cases, what, differ);
}

fn main(rt: HostRuntime) {
    let input = rt.stdin();
    let out = rt.stdout();
    section(input, out, "collisions", collision_holds);
    section(input, out, "neighbours", neighbour_holds);
    section(input, out, "outs", out_holds);
    section(input, out, "walls", wall_holds);
    section(input, out, "steppings", stepping_holds);
    section(input, out, "cells", cells_hold);
    section(input, out, "boxes", box_holds);
    if words::read(input) != Ok(None) {
        let _ = println!(out; "more words follow");
    }
}
