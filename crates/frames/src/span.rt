// One span of a floor whose moments stand, from a table that has them: the numbers of its record, the direction of its frame, and the widths across its line.
ghost use Rattle.std.specs.Prelude.{◌≡◌, drop, take, ◌+◌, ◌*◌};
ghost use Rattle.tables.specs.Width.{record_width};
ghost use Rattle.tables.specs.Asked.{Room};
ghost use Rattle.frames.specs.Asked.{Held};
ghost use Rattle.frames.specs.Spans.{span_at};

use layouts::outer_line;
use lines::line::below;
use lines::survey::Floor;
use plan::read::along;
use plan::ways::{Way, across, pick};
use stiffness::line::{column_strip_width, frame_width};
use tables::places::place_of;
use tables::write::{WIDTH, write_at};

// The numbers of its record; the direction; whether its line is an outer one, and the width of the beam there, 0 where there is none; wc and W.
// The beam is no Option: a strip loses its width or half of it (02, Five), which at 0 is nothing.
#[derive(Clone, Copy)]
pub struct Span {
    pub numbers: [u32; WIDTH],
    pub way: Way,
    pub outer: bool,
    pub beam: u32,
    pub strip: u64,
    pub width: u64,
}

fn numbers_of(table: &[u32], k: u32) -> [u32; WIDTH]
    requires { Room (k + 1) table.now }
    ensures { result ≡ take record_width (drop (k * record_width) table.now) }
{
    let at = k as usize * WIDTH;
    let mut numbers = [0u32; WIDTH];
    write_at(&mut numbers, 0, &table[at..at + WIDTH]);
    numbers
}

// Of record k. What is read of its line is read here once more and not by `line_view`: with a second caller that would cost every opening some percent.
pub fn span_at(floor: Floor, table: &[u32], k: u32) -> Span
    requires { Held floor.bytes.now table.now k }
    ensures { result ≡ span_at floor.entry.bytes.now k }
{
    let slab = floor.slab;
    let plan = floor.plan();
    let p = place_of(slab.bays, k);
    let d = p.way;
    let l = p.line;
    let over = across(d);
    let outer = outer_line(along(slab.bays, over), l);
    let low = below(floor.bytes, slab.bays, d, l) as u64;
    let high = plan.span(over, l) as u64;
    let column = pick(over, slab.cx, slab.cy) as u64;
    let l1 = plan.span(d, p.span) as u64;
    Span {
        numbers: numbers_of(table, k),
        way: d,
        outer,
        beam: plan.beam_width(d, l),
        strip: column_strip_width(outer, l1, low, high, column),
        width: frame_width(outer, low, high, column),
    }
}
