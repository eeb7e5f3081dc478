// The widths of a frame on an outer line: the span inside it, the column across it.
// Span and column come as two, here and for α, and their ranges are asked, as of the functions of stiffness that they go to.
ghost use Rattle.std.specs.Prelude.{◌≡◌, true, ◌≤◌};
ghost use Rattle.stiffness.specs.Asked.{Span, Column, Frame};
ghost use Rattle.stiffness.specs.Lines.{frame_width};

use stiffness::line::{column_strip_width, frame_width};

pub fn edge_width(span: u64, column: u64) -> u64
    requires { Span span × Column column }
    ensures { (result ≡ frame_width true 0 span column) × Frame result }
{
    frame_width(true, 0, span, column)
}

pub fn edge_strip(l1: u64, span: u64, column: u64) -> u64
    requires { Span span × Column column }
    ensures { result ≤ frame_width true 0 span column }
{
    column_strip_width(true, l1, 0, span, column)
}
