// The numbers of a line and of a span of it, which are worked out before the span's sections.
ghost use Rattle.std.specs.Prelude.{◌≡◌};
ghost use Rattle.spans.specs.Works.{line_work, span_work};
ghost use Rattle.spans.specs.Asked.{Sides, WorkableSpan, Worked};

use crate::view::{LineView, View};
use stiffness::line::{column_strip_width, frame_width, transverse_span};
use strips::span::{clear_length, span_ratio, static_moment, stiffness_ratio};

// W, l2 and α of a line: the same for all its spans.
#[derive(Clone, Copy)]
pub struct LineWork {
    pub width: u64,
    pub l2: u64,
    pub alpha: u64,
}

// Mo, A, R and wc of a span, and what else its sections need. Their ranges are asked (`Worked`) and not a ghost field: `Works: span_work` makes
// one of any view, workable or not.
// Its line's width and l2 stand here once more and not as a `LineWork`: no section needs the line's α, and `span_work` of specs/ has seven numbers.
#[derive(Clone, Copy)]
pub struct SpanWork {
    pub moment: u64,
    pub a: u64,
    pub r: u64,
    pub strip: u64,
    pub width: u64,
    pub l2: u64,
    pub t: u64,
}

// Of a line whose α is at hand.
pub fn line_work(line: LineView, alpha: u64) -> LineWork
    requires { Sides line }
    ensures { result ≡ line_work line alpha }
{
    let outer = line.outer;
    let below = line.below as u64;
    let above = line.above as u64;
    let across = line.across as u64;
    let width = frame_width(outer, below, above, across);
    let l2 = transverse_span(outer, below, above);
    LineWork { width, l2, alpha }
}

// Of a span, where its line's numbers are at hand.
pub fn span_work(v: View, w: LineWork) -> SpanWork
    requires { WorkableSpan v w }
    ensures { (result ≡ span_work v) × Worked result }
{
    let slab = v.slab;
    let line = v.line;
    let dead = slab.dead as u64;
    let live = slab.live as u64;
    let t = slab.t as u64;
    let outer = line.outer;
    let below = line.below as u64;
    let above = line.above as u64;
    let along = line.along as u64;
    let across = line.across as u64;
    let l1 = v.l1 as u64;
    let width = w.width;
    let l2 = w.l2;
    let alpha = w.alpha;
    let moment = static_moment(dead, live, width, clear_length(l1, along));
    let a = stiffness_ratio(alpha, l2, l1);
    let r = span_ratio(l2, l1);
    let strip = column_strip_width(outer, l1, below, above, across);
    SpanWork {
        moment,
        a,
        r,
        strip,
        width,
        l2,
        t,
    }
}
