// The governing negative at each support (02, request One), written to its lent slice from the table as it stands.
#![tactic(auto)]

ghost use Rattle.std.specs.Prelude.{◌≡◌, ◌+◌, ◌*◌, ◌-◌, ◌≤◌};
ghost use Rattle.numbers.specs.Records.{written_from, every};
ghost use Rattle.supports.specs.Governing.{support_width, five_from, governs, support_on, supports_of, last_of, support_count, support_first, support_at, governed};
ghost use Rattle.tables.specs.Places.{start_in};
ghost use Rattle.supports.specs.Beside.{beside_at};
ghost use Rattle.supports.specs.Asked.{Section, OnFrame, Supporting, AtFrame, AtSupports};
ghost use Rattle.tables.specs.Asked.{Bayed, OnLine};

use plan::read::{Bays, along};
use plan::ways::{Way, across, pick};
use tables::named::{Named, Spans, named_spans};
use tables::places::line_first;
use tables::write::{WIDTH, write_record};

// How many numbers a support has: total, column, middle, beam, slab.
pub const SUPPORT: usize = 5;

// Where the ends stand in a record.
const LOW_END: usize = 1;

const HIGH_END: usize = 11;

// Not by the counts of crate tables: a line has one support more than spans, and a function of both would take that 1 beside all that these take.
pub fn support_count(b: Bays) -> u32
    requires { Bayed b }
    ensures { (result ≡ support_count b) × (result ≤ 338) }
{
    let nx = b.x;
    let ny = b.y;
    2 * ((ny + 1) * (nx + 1))
}

// The support with which those of line l along d start.
fn support_first(b: Bays, d: Way, l: u32) -> u32
    requires { OnLine b l }
    ensures { (result ≡ support_first b d l) × (result ≤ 325) }
{
    let nx = b.x;
    let ny = b.y;
    pick(d, 0, (ny + 1) * (nx + 1)) + l * (along(b, d) + 1)
}

// One by one, not by the library's copy of a slice: see `store_at` of crate changes.
fn five_from(table: &[u32], at: usize) -> [u32; SUPPORT]
    requires { Section table.now at }
    ensures { result ≡ five_from table.now at }
{
    [
        table[at],
        table[at + 1],
        table[at + 2],
        table[at + 3],
        table[at + 4],
    ]
}

// All five from one face.
fn governs(lower: [u32; SUPPORT], higher: [u32; SUPPORT]) -> [u32; SUPPORT]
    ensures { result ≡ governs lower higher }
{
    if lower[0] < higher[0] { higher } else { lower }
}

// Support s of a line of n spans, whose records start with `first`. Numbers, not a slice of its records: `support_on`, which is promised, has them.
fn support(table: &[u32], first: usize, n: usize, s: usize) -> [u32; SUPPORT]
    requires { OnFrame table.now first n s }
    ensures { result ≡ support_on table.now first n s }
{
    if s == 0 {
        return five_from(table, first * WIDTH + LOW_END);
    }
    let lower = five_from(table, (first + s - 1) * WIDTH + HIGH_END);
    if s == n {
        return lower;
    }
    governs(lower, five_from(table, (first + s) * WIDTH + LOW_END))
}

// Of line l along d, the supports at either end of some spans. Table and bays are two parameters, here and below: `Supporting` and `support_at` of
// specs/ take them apart, so that every clause would name the parts of a struct.
fn write_supports(table: &[u32], governing: &mut [u32], b: Bays, d: Way, l: u32, spans: Spans)
    requires { AtSupports b table.now governing.old d l spans.from spans.to }
    ensures { governing.new ≡ written_from support_width every (support_at b table.now) (support_first b d l + spans.from) (spans.to + 1 - spans.from) governing.old }
{
    let first = line_first(b, d, l) as usize;
    let start = support_first(b, d, l) as usize;
    let n = along(b, d) as usize;
    // Not an inclusive range, which tests a flag at each turn.
    let end = spans.to as usize + 1;
    for s in spans.from as usize..end {
        write_record(governing, start + s, support(table, first, n, s));
    }
}

// Those of line l along d that are next to a named record.
// Lines are walked here as in crate frames, by `named_spans`. One walk over a closure would take as much text again: what the closure keeps, in
// clauses, beside those of its two callers.
fn write_line(table: &[u32], governing: &mut [u32], b: Bays, named: Named, d: Way, l: u32)
    requires { AtFrame b table.now governing.old named.kind named.index d l }
    ensures { governing.new ≡ written_from support_width (beside_at b named.kind named.index) (support_at b table.now) (support_first b d l) (supports_of b d) governing.old }
{
    let spans = named_spans(named, d, l, along(b, d));
    if spans.from < spans.to {
        write_supports(table, governing, b, d, l, spans);
    }
}

fn write_lines(table: &[u32], governing: &mut [u32], b: Bays, named: Named, d: Way)
    requires { Supporting b table.now governing.old named.kind named.index }
    ensures { governing.new ≡ written_from support_width (beside_at b named.kind named.index) (support_at b table.now) (start_in (supports_of b) (last_of b) d) ((last_of b d + 1) * supports_of b d) governing.old }
{
    let last = along(b, across(d));
    for l in 0..last + 1 {
        write_line(table, governing, b, named, d, l);
    }
}

// The supports next to a record that a change names; every other number is as it was.
pub fn write_beside(table: &[u32], governing: &mut [u32], b: Bays, named: Named)
    requires { Supporting b table.now governing.old named.kind named.index }
    ensures { governing.new ≡ governed b (beside_at b named.kind named.index) table.now governing.old }
{
    write_lines(table, governing, b, named, Way::X);
    write_lines(table, governing, b, named, Way::Y);
}
