// Where a floor is broken: every place that breaks a limit, in the order limit, direction, j, i, four numbers each.
// One walk serves to count the places and to write them.
#![tactic(auto)]

ghost use Rattle.std.specs.Prelude.{◌≡◌, ◌+◌, ◌≤◌};
ghost use Rattle.answers.specs.Answers.{query_answer};
ghost use Rattle.floor.specs.Asked.{Accepted};
ghost use Rattle.limits.specs.Places.{undirected, extent, broken_at};
ghost use Rattle.broken.specs.Listing.{row_places, places_along, limit_places, places_of};
ghost use Rattle.broken.specs.Laid.{noted, Listed};
ghost use Rattle.broken.specs.Answers.{has_room, Placed};
ghost use Rattle.broken.specs.Asked.{SomeBays, AtPlace, InRow, Along, OfLimit, Judged, Counted};

use answers::Refusal;
use extremes::{slender_at, unequal_at};
use floor::refusal::accept;
use limits::{Limit, few_along, heavy, limit_at, number};
use lines::survey::{Lines, Survey};
use places::{astray_along, unlike_next};
use plan::read::Bays;
use plan::ways::{Way, pick};
use tables::write::write_at;

// How many numbers a place has.
const PLACE: usize = 4;

// So many numbers have room for the places of any floor.
const SUFFICES: usize = 3172;

// A limit without a direction has its places under x.
fn undirected(d: Way, b: Bays) -> Bays
    ensures { result ≡ undirected d b }
{
    match d {
        Way::X => b,
        Way::Y => Bays { x: 0, y: 0 },
    }
}

// How many i and how many j the places of a limit along d have.
fn extent(limit: Limit, d: Way, b: Bays) -> Bays
    requires { SomeBays b }
    ensures { result ≡ extent limit d b }
{
    match limit {
        Limit::Few => Bays { x: 1, y: 1 },
        Limit::Slender => undirected(d, b),
        Limit::Uneven => Bays {
            x: pick(d, b.x - 1, 1),
            y: pick(d, 1, b.y - 1),
        },
        Limit::Astray => Bays {
            x: b.x + 1,
            y: b.y + 1,
        },
        Limit::Heavy => undirected(d, Bays { x: 1, y: 1 }),
        Limit::Unbalanced => undirected(d, b),
        Limit::Thin => undirected(d, b),
    }
}

// Is the limit broken at this place?
// A match, not a closure for each limit: the walks below list a place with its limit, and the clauses name it. They take limit and way one by
// one, as `broken_at` of specs/ does.
fn broken_at(lines: &Lines, limit: Limit, d: Way, i: u32, j: u32) -> bool
    requires { AtPlace lines.now.survey.floor.bytes.now limit d i j }
    ensures { result ≡ broken_at lines.now.survey.floor.bytes.now limit d i j }
{
    let survey = &lines.survey;
    let slab = survey.floor.slab;
    match limit {
        Limit::Few => few_along(pick(d, slab.bays.x, slab.bays.y)),
        Limit::Slender => slender_at(survey, i, j),
        Limit::Uneven => unlike_next(survey, d, pick(d, i, j)),
        Limit::Astray => astray_along(survey, d, i, j),
        Limit::Heavy => heavy(slab.dead, slab.live),
        Limit::Unbalanced => unequal_at(survey, &lines.alphas, i, j),
        // Not by `thick_enough`, which the compiler puts into the verdict's walk as long as it has no other caller.
        Limit::Thin => (slab.t as u64) < survey.panel_thickness(&lines.alphas, i, j),
    }
}

#[derive(Clone, Copy)]
pub struct Place {
    pub limit: Limit,
    pub way: Way,
    pub i: u32,
    pub j: u32,
}

// Place n of the list, written where the slice has room for it: one without room serves to count. Limit and direction as numbers, C's format.
// The slice and the count are two, not one struct: each clause of the walk would have to say, besides, that the struct keeps its slice.
fn note(places: &mut [u32], n: u32, p: Place)
    requires { Counted n }
    ensures { places.new ≡ noted n p places.old }
{
    let at = (n as usize) * PLACE;
    if at + PLACE <= places.len() {
        let limit = p.limit;
        let d = p.way;
        let numbers = [number(limit), pick(d, 0, 1), p.i, p.j];
        write_at(places, at, &numbers);
    }
}

// The places of row j, after the n that were listed before.
fn list_row(lines: &Lines, limit: Limit, d: Way, j: u32, places: &mut [u32], n: u32) -> u32
    requires { InRow lines.now.survey.floor.bytes.now limit d j n }
    ensures { Listed n (row_places lines.now.survey.floor.bytes.now limit d j) places.old result places.new × (result ≤ n + 13) }
{
    let last = extent(limit, d, lines.survey.floor.slab.bays).x;
    let mut m = n;
    for i in 0..last {
        if broken_at(lines, limit, d, i, j) {
            let way = d;
            note(places, m, Place { limit, way, i, j });
            m += 1;
        }
    }
    m
}

fn list_along(lines: &Lines, limit: Limit, d: Way, places: &mut [u32], n: u32) -> u32
    requires { Along n }
    ensures { Listed n (places_along lines.now.survey.floor.bytes.now limit d) places.old result places.new × (result ≤ n + 169) }
{
    let last = extent(limit, d, lines.survey.floor.slab.bays).y;
    let mut m = n;
    for j in 0..last {
        m = list_row(lines, limit, d, j, places, m);
    }
    m
}

fn list_limit(lines: &Lines, limit: Limit, places: &mut [u32], n: u32) -> u32
    requires { OfLimit n }
    ensures { Listed n (limit_places lines.now.survey.floor.bytes.now limit) places.old result places.new × (result ≤ n + 338) }
{
    let m = list_along(lines, limit, Way::X, places, n);
    list_along(lines, limit, Way::Y, places, m)
}

// All of them. A limit that is no part of the verdict v has none, and is not looked at.
// The verdict is a number, not a set of limits: C's answer, whose parts the clauses name.
fn list_all(lines: &Lines, v: u32, places: &mut [u32]) -> u32
    requires { Judged lines.now.survey.floor.bytes.now v }
    ensures { Listed 0 (places_of lines.now.survey.floor.bytes.now) places.old result places.new × (result ≤ 2366) }
{
    let mut n: u32 = 0;
    for k in 0..7 {
        let limit = limit_at(k);
        if v / number(limit) % 2 == 1 {
            n = list_limit(lines, limit, places, n);
        }
    }
    n
}

// Is there room for all of them in a slice of this length? They are counted only where it may be too short.
fn has_room(lines: &Lines, v: u32, length: usize) -> bool
    requires { Judged lines.now.survey.floor.bytes.now v }
    ensures { result ≡ has_room lines.now.survey.floor.bytes.now length }
{
    if SUFFICES <= length {
        return true;
    }
    let mut none = [0u32; 1];
    let n = list_all(lines, v, &mut none);
    (n as usize) * PLACE <= length
}

// Of an accepted floor: nothing is written before there is room for all.
fn list(f: &[u8], places: &mut [u32]) -> Result<u32, Refusal>
    requires { Accepted f.now }
    ensures { Placed f.now places.old (query_answer result) places.new }
{
    let lines = Lines::of(Survey::of(f));
    let v = verdict::broken(&lines);
    if !has_room(&lines, v, places.len()) {
        return Err(Refusal::PlacesRoom);
    }
    Ok(list_all(&lines, v, places))
}

// Every place where a limit is broken: how many there are, with four numbers for each in the slice.
pub fn places(f: &[u8], places: &mut [u32]) -> Result<u32, Refusal>
    ensures { Placed f.now places.old (query_answer result) places.new }
{
    accept(f)?;
    list(f, places)
}
