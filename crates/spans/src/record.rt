// The record of a span: Mo, then low end, between, high end, each as total, column, middle, beam, slab.
ghost use Rattle.std.specs.Prelude.{◌≡◌, ◌≤◌};
ghost use Rattle.spans.specs.Record.{end_span, inner_span, percents_of, outer_part, end_strips, between_strips, in_order, record_of};
ghost use Rattle.spans.specs.Asked.{WorkedEnd, AtEnd, AtSection, WorkableSpan};

use crate::view::{EndView, View};
use crate::work::{LineWork, SpanWork, span_work};
use layouts::Layout;
use stiffness::section::{Section, edge_torsion};
use strips::endspan::{SpanPlace, end_percent, inner_percent, section_total};
use strips::span::torsion_ratio;
use strips::strip::{Strips, between, by_part, evenly, inner_negative, outer_negative};
use tables::write::WIDTH;

// The code of a side that is fully restrained. Codes are numbers, not an enum: C's format and `percents_of` of specs/ speak of any number.
const FULLY_RESTRAINED: u32 = 2;

// p at the low end, between and at the high end.
#[derive(Clone, Copy)]
pub struct Percents {
    pub low: u64,
    pub between: u64,
    pub high: u64,
}

// In a span with an outer end with this code, from which each section has its place.
fn end_span(code: u32, layout: Layout, low: SpanPlace, high: SpanPlace) -> Percents
    ensures { result ≡ end_span code layout low high }
{
    Percents {
        low: end_percent(code, layout, low),
        between: end_percent(code, layout, SpanPlace::Between),
        high: end_percent(code, layout, high),
    }
}

fn inner_span() -> Percents
    ensures { result ≡ inner_span }
{
    Percents {
        low: inner_percent(SpanPlace::InnerEnd),
        between: inner_percent(SpanPlace::Between),
        high: inner_percent(SpanPlace::InnerEnd),
    }
}

fn percents_of(layout: Layout, low: EndView, high: EndView) -> Percents
    ensures { result ≡ percents_of layout low high }
{
    let first = low.outer;
    let last = high.outer;
    if first {
        return end_span(low.code, layout, SpanPlace::OuterEnd, SpanPlace::InnerEnd);
    }
    if last {
        return end_span(high.code, layout, SpanPlace::InnerEnd, SpanPlace::OuterEnd);
    }
    inner_span()
}

// The outer negative's part, with B of the beam across that end.
fn outer_part(w: SpanWork, e: EndView) -> u64
    requires { WorkedEnd w e }
    ensures { (result ≡ outer_part w e) × (result ≤ 10000) }
{
    let width = e.width as u64;
    let depth = e.depth as u64;
    let t = w.t;
    let torsion = edge_torsion(Section::of(width, depth), t);
    outer_negative(w.a, w.r, torsion_ratio(torsion, w.l2, t))
}

fn end_strips(w: SpanWork, e: EndView, percent: u64) -> Strips
    requires { AtEnd w e percent }
    ensures { result ≡ end_strips w e percent }
{
    let a = w.a;
    let outer = e.outer;
    let code = e.code;
    let total = section_total(percent, w.moment);
    if outer {
        if code == FULLY_RESTRAINED {
            return evenly(total, w.strip, w.width, a);
        }
        return by_part(total, outer_part(w, e), a);
    }
    by_part(total, inner_negative(a, w.r), a)
}

fn between_strips(w: SpanWork, percent: u64) -> Strips
    requires { AtSection w percent }
    ensures { result ≡ between_strips w percent }
{
    let a = w.a;
    let total = section_total(percent, w.moment);
    by_part(total, between(a, w.r), a)
}

// In the order of the table's record. No From: the three sections are of one type, and are told apart by their names.
fn in_order(moment: u32, low: Strips, middle: Strips, high: Strips) -> [u32; WIDTH]
    ensures { result ≡ in_order moment low middle high }
{
    [
        moment,
        low.total,
        low.column,
        low.middle,
        low.beam,
        low.slab,
        middle.total,
        middle.column,
        middle.middle,
        middle.beam,
        middle.slab,
        high.total,
        high.column,
        high.middle,
        high.beam,
        high.slab,
    ]
}

pub fn record(v: View, line: LineWork) -> [u32; WIDTH]
    requires { WorkableSpan v line }
    ensures { result ≡ record_of v }
{
    let slab = v.slab;
    let layout = slab.layout;
    let low = v.low;
    let high = v.high;
    let w = span_work(v, line);
    let p = percents_of(layout, low, high);
    in_order(
        w.moment as u32,
        end_strips(w, low, p.low),
        between_strips(w, p.between),
        end_strips(w, high, p.high),
    )
}
