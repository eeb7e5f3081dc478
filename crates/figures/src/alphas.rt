// α of a line by its beam: a line inside has the same span on either side.
ghost use Rattle.std.specs.Prelude.{◌≤◌};
ghost use Rattle.stiffness.specs.Asked.{Beam, Span, Column};

use crate::edge::edge_width;
use stiffness::line::{alpha, frame_width};
use stiffness::section::Section;

pub fn outer_alpha(beam: Section, span: u64, column: u64, t: u64) -> u64
    requires { Beam beam.width beam.depth t × Span span × Column column }
    ensures { result ≤ 200000000 }
{
    alpha(true, beam, edge_width(span, column), t)
}

pub fn inner_alpha(beam: Section, span: u64, column: u64, t: u64) -> u64
    requires { Beam beam.width beam.depth t × Span span × Column column }
    ensures { result ≤ 200000000 }
{
    alpha(false, beam, frame_width(false, span, span, column), t)
}
