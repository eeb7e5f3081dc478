// Document 000, the limits of the method: its exercise on stiffness, and Example (6), of which the columns are 370 for 375.
ghost use Rattle.figures.specs.Ranges.{Sums};

use crate::alphas::{inner_alpha, outer_alpha};
use crate::compare::formula;
use std::io;
use std::io::Write;
use stiffness::section::Section;

// p/q in ten-thousandths, of 01's limit p > 5q or q > 5p: ax and ay are the sums of α of the panel's two x lines and two y lines, x and y its
// spans in dm.
pub fn unlikeness(ax: u64, y: u64, ay: u64, x: u64) -> u64
    requires { Sums ax y ay x }
{
    10000 * (ax * (y * y)) / (ay * (x * x)).max(1)
}

// α of the outer beams B1 and B3 and the inner ones B2 and B4, on a slab of 165, and p/q of the panels 1 to 4.
fn example<W: Write>(out: &mut W) -> io::Result<()> {
    let b1 = outer_alpha(Section::of(350, 700), 6000, 370, 165);
    let b2 = inner_alpha(Section::of(350, 700), 6000, 370, 165);
    let b3 = outer_alpha(Section::of(300, 600), 7600, 370, 165);
    let b4 = inner_alpha(Section::of(300, 600), 7600, 370, 165);
    formula(out, 104, 125700, b1)?;
    formula(out, 105, 89000, b2)?;
    formula(out, 106, 54000, b3)?;
    formula(out, 107, 37900, b4)?;
    formula(out, 108, 14400, unlikeness(b1 + b2, 60, b3 + b4, 76))?;
    formula(out, 109, 17600, unlikeness(b1 + b2, 60, b4 + b4, 76))?;
    formula(out, 110, 11900, unlikeness(b2 + b2, 60, b3 + b4, 76))?;
    formula(out, 111, 14600, unlikeness(b2 + b2, 60, b4 + b4, 76))
}

pub fn all<W: Write>(out: &mut W) -> io::Result<()> {
    formula(out, 102, 14690, unlikeness(100000, 60, 50000, 70))?;
    example(out)
}
