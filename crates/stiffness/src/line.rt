// The widths across a line, and its stiffness. A line's numbers come one by one, as the clauses of these functions take them.
ghost use Rattle.std.specs.Prelude.{◌≡◌, ◌≤◌};
ghost use Rattle.stiffness.specs.Asked.{Beam, Beside, Frame, Line};
ghost use Rattle.stiffness.specs.Lines.{past, frame_width, alpha, transverse_span, column_strip_width};

use crate::section::{Section, overhang};

fn past(outer: bool, column: u64) -> u64
    ensures { result ≡ past outer column }
{
    if outer { column } else { 0 }
}

// W
#[tactic(auto, unfolding(crate::specs::Lines::frame_width))]
pub fn frame_width(outer: bool, below: u64, above: u64, column: u64) -> u64
    requires { Line outer below above column }
    ensures { (result ≡ frame_width outer below above column) × Frame result }
{
    (below + above + past(outer, column)) / 2
}

// α, in ten-thousandths.
// A beam of width 0, here and in `edge_torsion`, is none. It is no Option: both clauses are of any width, and answer 0 for this one.
#[tactic(auto, unfolding(crate::specs::Lines::alpha))]
pub fn alpha(outer: bool, beam: Section, width: u64, t: u64) -> u64
    requires { Beam beam.width beam.depth t × Frame width }
    ensures { (result ≡ alpha outer beam.width beam.depth width t) × (result ≤ 200000000) }
{
    let b = beam.width;
    if b == 0 {
        return 0;
    }
    let flange = Section::of(overhang(outer, beam.depth, t), t);
    10000 * beam.with_flange(flange) / (width * (t * t * t))
}

// l2
#[tactic(auto, unfolding(crate::specs::Lines::transverse_span))]
pub fn transverse_span(outer: bool, below: u64, above: u64) -> u64
    requires { Beside outer below above }
    ensures { (result ≡ transverse_span outer below above) × (1000 ≤ result) × (result ≤ 12000) }
{
    if outer {
        below + above
    } else {
        (below + above) / 2
    }
}

// wc
#[tactic(auto, using(crate::proofs::Widths::strip_most), unfolding(crate::specs::Lines::column_strip_width))]
pub fn column_strip_width(outer: bool, l1: u64, below: u64, above: u64, column: u64) -> u64
    requires { Line outer below above column }
    ensures { (result ≡ column_strip_width outer l1 below above column) × (result ≤ frame_width outer below above column) }
{
    l1.min(below) / 4 + l1.min(above) / 4 + past(outer, column) / 2
}
