// The frames of a floor whose moments stand, written to the lent table line by line.
#![tactic(auto)]

pub mod span;

ghost use Rattle.std.specs.Prelude.{◌≡◌, ◌+◌, ◌*◌, ◌-◌};
ghost use Rattle.numbers.specs.Records.{put, written_from, every};
ghost use Rattle.plan.specs.Plan.{bays, last_line};
ghost use Rattle.tables.specs.Width.{record_width};
ghost use Rattle.tables.specs.Places.{first_of, line_first};
ghost use Rattle.tables.specs.Named.{named_at};
ghost use Rattle.frames.specs.Asked.{Writable, InFrames, AtLine, AtSpans, AtSpan};
ghost use Rattle.frames.specs.Table.{record_at, named_written};

use lines::line::{X, Y};
use lines::survey::Floor;
use plan::read::along;
use plan::ways::{Way, across};
use spans::record::record;
use spans::view::{LineView, line_view, span_view};
use spans::work::{LineWork, line_work};
use tables::named::{Named, Spans, named_spans};
use tables::places::line_first;
use tables::write::write_record;

// Record k, of span s along d, where what the spans of its line share is at hand. Here and down to `write_lines` a clause says once more what the
// floor's type says: its record stands in specs/, and is asked of the table as well.
fn write_span(
    floor: Floor,
    table: &mut [u32],
    line: LineView,
    work: LineWork,
    d: Way,
    s: u32,
    k: u32,
)
    requires { AtSpan floor.bytes.now table.old floor.slab line work d s k }
    ensures { table.new ≡ put record_width k (record_at floor.entry.bytes.now k) table.old }
{
    let v = span_view(floor.bytes, floor.slab, line, d, s);
    write_record(table, k as usize, record(v, work));
}

// Some spans of line l along d. What they share is read and worked out once.
// Floor, table, α of the lines along d, and d come one by one, here and below, as `AtSpans`, `AtLine` and `InFrames` of specs/ take them.
fn write_spans(floor: Floor, table: &mut [u32], alphas: &[u64; 13], d: Way, l: u32, spans: Spans)
    requires { AtSpans floor.bytes.now table.old floor.slab alphas.now d l spans }
    ensures { table.new ≡ written_from record_width every (record_at floor.entry.bytes.now) (line_first floor.entry.bytes.now d l + spans.from) (spans.to - spans.from) table.old }
{
    let first = line_first(floor.slab.bays, d, l);
    let line = line_view(floor.bytes, floor.slab, d, l);
    let work = line_work(line, alphas[l as usize]);
    for s in spans.from..spans.to {
        write_span(floor, table, line, work, d, s, first + s);
    }
}

// A line with no span named is not even read.
fn write_line(floor: Floor, table: &mut [u32], alphas: &[u64; 13], named: Named, d: Way, l: u32)
    requires { AtLine floor.bytes.now table.old floor.slab alphas.now named.kind named.index d l }
    ensures { table.new ≡ written_from record_width (named_at floor.entry.bytes.now named.kind named.index) (record_at floor.entry.bytes.now) (line_first floor.entry.bytes.now d l) (bays floor.entry.bytes.now d) table.old }
{
    let spans = named_spans(named, d, l, along(floor.slab.bays, d));
    if spans.from < spans.to {
        write_spans(floor, table, alphas, d, l, spans);
    }
}

fn write_lines(floor: Floor, table: &mut [u32], alphas: &[u64; 13], named: Named, d: Way)
    requires { InFrames floor.bytes.now table.old floor.slab alphas.now named.kind named.index d }
    ensures { table.new ≡ written_from record_width (named_at floor.entry.bytes.now named.kind named.index) (record_at floor.entry.bytes.now) (first_of floor.entry.bytes.now d) ((last_line floor.entry.bytes.now d + 1) * bays floor.entry.bytes.now d) table.old }
{
    let last = along(floor.slab.bays, across(d));
    // Not an inclusive range, which tests a flag at each turn.
    for l in 0..last + 1 {
        write_line(floor, table, alphas, named, d, l);
    }
}

// The records that a change names, of a floor whose α is at hand; every other number is as it was.
// Floor and α come as two, and not as `Lines`, which would ask for the spans as well.
pub fn write_named(floor: Floor, table: &mut [u32], alphas: &[[u64; 13]; 2], named: Named)
    requires { Writable floor.bytes.now table.old alphas.now named.kind named.index }
    ensures { table.new ≡ named_written floor.entry.bytes.now named.kind named.index table.old }
{
    write_lines(floor, table, &alphas[X], named, Way::X);
    write_lines(floor, table, &alphas[Y], named, Way::Y);
}
