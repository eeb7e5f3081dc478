// What the record of a span is worked out from, and nothing else: two floors that read alike here have the same record.
ghost use Rattle.std.specs.Prelude.{◌≡◌};
ghost use Rattle.plan.specs.Plan.{span};
ghost use Rattle.lines.specs.Slabs.{slab_of};
ghost use Rattle.spans.specs.Views.{line_view, end_line, end_view, low_end, high_end};
ghost use Rattle.spans.specs.Asked.{SlabbedSpan};

use layouts::outer_line;
use lines::line::below;
use lines::slab::Slab;
use plan::read::{Bays, Plan, along};
use plan::ways::{End, Way, across, pick};

// Of its line: the spans on either side, 0 past an outer line, the column along and across, and the beam, of width 0 where there is none.
// No Options: the widths of 01 are sums over both sides, and `frame_width`, `transverse_span` and `alpha` of specs/ speak of the zeros.
#[derive(Clone, Copy)]
pub struct LineView {
    pub outer: bool,
    pub below: u32,
    pub above: u32,
    pub along: u32,
    pub across: u32,
    pub width: u32,
    pub depth: u32,
}

// Of an end: at an outer line, the code of that side and the beam there; otherwise zeros. It is no Option: `WorkableEnd`, `unrestrained` and
// `torsion_of` of specs/ speak of these numbers at either kind of end.
// Its beam lies across the frame and a line's along it: a type of width and depth for both would save no line.
#[derive(Clone, Copy)]
pub struct EndView {
    pub outer: bool,
    pub code: u32,
    pub width: u32,
    pub depth: u32,
}

// The slab is the whole floor's.
#[derive(Clone, Copy)]
pub struct View {
    pub slab: Slab,
    pub line: LineView,
    pub l1: u32,
    pub low: EndView,
    pub high: EndView,
}

// Of a floor whose slab is at hand. It is taken apart, not as a `Floor`, which would ask that the floor is accepted.
pub fn line_view(f: &[u8], slab: Slab, d: Way, l: u32) -> LineView
    requires { slab ≡ slab_of f.now }
    ensures { result ≡ line_view f.now d l }
{
    let plan = Plan {
        bytes: f,
        bays: slab.bays,
    };
    let over = across(d);
    LineView {
        outer: outer_line(along(slab.bays, over), l),
        below: below(f, slab.bays, d, l),
        above: plan.span(over, l),
        along: pick(d, slab.cx, slab.cy),
        across: pick(over, slab.cx, slab.cy),
        width: plan.beam_width(d, l),
        depth: plan.beam_depth(d, l),
    }
}

// The line across that an end of the frames along d lies on.
fn end_line(b: Bays, d: Way, e: End) -> u32
    ensures { result ≡ end_line b d e }
{
    match e {
        End::Low => 0,
        End::High => along(b, d),
    }
}

// End e of a span along d: an outer end where no span follows on that side.
fn end_view(plan: Plan, d: Way, e: End, outer: bool) -> EndView
    ensures { result ≡ end_view plan.entry.bytes.now d e outer }
{
    if outer {
        let over = across(d);
        let l = end_line(plan.bays, d, e);
        EndView {
            outer,
            code: plan::side(plan.bytes, d, e),
            width: plan.beam_width(over, l),
            depth: plan.beam_depth(over, l),
        }
    } else {
        EndView {
            outer,
            code: 0,
            width: 0,
            depth: 0,
        }
    }
}

// Span s of a line whose view is at hand, since all spans of a line share it.
pub fn span_view(f: &[u8], slab: Slab, line: LineView, d: Way, s: u32) -> View
    requires { SlabbedSpan f.now slab s }
    ensures { result ≡ record { slab = slab; line = line; l1 = span f.now d s; low = low_end f.now d s; high = high_end f.now d s } }
{
    let plan = Plan {
        bytes: f,
        bays: slab.bays,
    };
    View {
        slab,
        line,
        l1: plan.span(d, s),
        low: end_view(plan, d, End::Low, s == 0),
        high: end_view(plan, d, End::High, s + 1 == along(slab.bays, d)),
    }
}
