// A strip of a section of a span: its width, its moment, and the bars that carry it.
ghost use Rattle.std.specs.Prelude.{◌≡◌, ◌≤◌, ◌<◌};
ghost use Rattle.steel.specs.Asked.{InSpan};
ghost use Rattle.steel.specs.Strips.{moment_number, strip_width, schedule_depth, reinforcement_of, entry_of, if_barred};

use crate::query::Query;
use bars::choice::bars_for;
use bars::entry::Entry;
use bars::width::{column_width, middle_width};
use frames::span::Span;
use plan::ways::Way;

// t, fc and fy of a floor.
// `Query` has the three one by one and holds no `Materials`: its fields are C's six arguments, as `query_of` of specs/ has them.
#[derive(Clone, Copy)]
pub struct Materials {
    pub t: u64,
    pub fc: u64,
    pub fy: u64,
}

// The area asked, and the bars; the diameter is 0 where there are none.
// Not an area beside `Bars`: `laid` and `entry_of` of specs/ name the three fields, and C's record has them one by one.
#[derive(Clone, Copy)]
pub struct Reinforcement {
    pub area: u32,
    pub diameter: u32,
    pub spacing: u32,
}

// The width that is left for bars. A span has six strips: of section q / 2, the column strip where q is even and the middle strip where it is odd.
// q is a number, not two enums: the schedule's records have q / 2 and q % 2, and `strip_width`, `moment_number` and `entry_of` of specs/ are of any q.
fn strip_width(s: Span, q: u32) -> u64
    ensures { result ≡ strip_width s q }
{
    if q % 2 == 0 {
        column_width(s.outer, s.strip, s.beam)
    } else {
        middle_width(s.width, s.strip)
    }
}

// Which number of the span's record is the moment.
pub fn moment_number(q: u32) -> usize
    requires { q < 6 }
    ensures { (result ≡ moment_number q) × (result ≤ 15) }
{
    let section = (q / 2) as usize;
    if q % 2 == 0 {
        5 * section + 5
    } else {
        5 * section + 3
    }
}

// The depth that is asked for: bars along x lie in the first layer, and bars along y inside them, at the default depth (02, Six). A slab thinner than 26 counts as
// 26 here; the query refuses it in any case.
fn schedule_depth(way: Way, t: u64) -> u64
    ensures { result ≡ schedule_depth way t }
{
    let first_layer = t.saturating_sub(26);
    match way {
        Way::X => first_layer,
        Way::Y => 0,
    }
}

// No bars, and no area.
const NOTHING: Reinforcement = Reinforcement {
    area: 0,
    diameter: 0,
    spacing: 0,
};

// The least area and the smallest bars. A width of 0 is no query.
fn reinforce(query: Query) -> Reinforcement
    ensures { result ≡ reinforcement_of query }
{
    let width = query.b;
    if width == 0 {
        return NOTHING;
    }
    let Ok(area) = crate::steel(query) else {
        return NOTHING;
    };
    match bars_for(width, area as u64, query.t) {
        Some(bars) => Reinforcement {
            area,
            diameter: bars.diameter,
            spacing: bars.spacing,
        },
        None => Reinforcement { area, ..NOTHING },
    }
}

// The record of the schedule for strip q of span s, which is record k of the table. It is promised of a strip without bars too, whose diameter is 0.
// Field by field and no From: they are of the span, of the strip, of its moment and of what is laid.
pub fn entry(s: Span, m: Materials, k: u32, q: u32, moment: u32) -> Entry
    requires { InSpan s q moment }
    ensures { result ≡ entry_of s m k q }
{
    let width = strip_width(s, q);
    let laid = reinforce(Query {
        m: moment as u64,
        b: width,
        t: m.t,
        d: schedule_depth(s.way, m.t),
        fc: m.fc,
        fy: m.fy,
    });
    Entry {
        record: k,
        section: q / 2,
        strip: q % 2,
        width: width as u32,
        moment,
        area: laid.area,
        diameter: laid.diameter,
        spacing: laid.spacing,
    }
}

// That record where the strip has bars.
pub fn barred_entry(s: Span, m: Materials, k: u32, q: u32, moment: u32) -> Option<Entry>
    requires { InSpan s q moment }
    ensures { result ≡ if_barred (entry_of s m k q) }
{
    let e = entry(s, m, k, q, moment);
    if e.diameter == 0 { None } else { Some(e) }
}
