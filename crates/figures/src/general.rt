// Document 004: General Example 1, of which the moments are asked of the whole floor, and the flat slab with capitals.
ghost use Rattle.std.specs.Prelude.{◌≤◌};
ghost use Rattle.figures.specs.Ranges.{Sums};

use crate::alphas::{inner_alpha, outer_alpha};
use crate::beams::thousands;
use crate::compare::formula;
use crate::edge::{edge_strip, edge_width};
use crate::method_limits::unlikeness;
use std::io;
use std::io::Write;
use stiffness::section::{Section, edge_torsion};
use strips::span::{clear_length, span_ratio, static_moment, torsion_ratio};
use strips::strip::{between, inner_negative, outer_negative};

// T of the outer beams B5, across the frame, and B1. By two names, and that of beams.rt by a third, as the documents name
// their beams: with the depth as a parameter, each call would repeat it.
fn b5() -> u64
    ensures { result ≤ 440000000000000 }
{
    edge_torsion(Section::of(300, 700), 180)
}

fn b1() -> u64
    ensures { result ≤ 440000000000000 }
{
    edge_torsion(Section::of(300, 600), 180)
}

fn torsions<W: Write>(out: &mut W) -> io::Result<()> {
    formula(
        out,
        412,
        4353000,
        thousands(Section::of(820, 180).torsion() + Section::of(300, 520).torsion()),
    )?;
    formula(out, 413, 5191000, thousands(b5()))?;
    formula(
        out,
        414,
        3258000,
        thousands(Section::of(720, 180).torsion() + Section::of(300, 420).torsion()),
    )?;
    formula(out, 415, 4295000, thousands(b1()))?;
    formula(out, 416, 6930, torsion_ratio(b5(), 8000, 180))?;
    formula(out, 417, 7360, torsion_ratio(b1(), 6000, 180))
}

// p/q of a panel and the mean α of its four lines, each after its number and as it is printed; ax and ay are the sums of α of its two x lines
// and two y lines.
fn panel<W: Write>(
    out: &mut W,
    ratio: u32,
    their_ratio: u32,
    mean: u32,
    their_mean: u32,
    ax: u64,
    ay: u64,
) -> io::Result<()>
    requires { Sums ax 80 ay 60 }
{
    formula(out, ratio, their_ratio, unlikeness(ax, 80, ay, 60))?;
    formula(out, mean, their_mean, (ax + ay) / 4)
}

// α of the outer beams B1 and B5 and the inner ones B3 and B7, and the panels A to D.
fn stiffnesses<W: Write>(out: &mut W) -> io::Result<()> {
    let b1 = outer_alpha(Section::of(300, 600), 8000, 600, 180);
    let b3 = inner_alpha(Section::of(300, 600), 8000, 600, 180);
    let b5 = outer_alpha(Section::of(300, 700), 6000, 600, 180);
    let b7 = inner_alpha(Section::of(300, 600), 6000, 600, 180);
    formula(out, 454, 82670, b5)?;
    formula(out, 455, 24440, b3)?;
    formula(out, 456, 32590, b7)?;
    formula(out, 457, 38230, b1)?;
    panel(out, 408, 9700, 458, 44480, b1 + b3, b5 + b7)?;
    panel(out, 409, 7540, 459, 41040, b3 + b3, b5 + b7)?;
    panel(out, 410, 17100, 460, 31960, b1 + b3, b7 + b7)?;
    panel(out, 411, 13330, 461, 28520, b3 + b3, b7 + b7)
}

fn widths<W: Write>(out: &mut W) -> io::Result<()> {
    let width = edge_width(8000, 600);
    let strip = edge_strip(6000, 8000, 600);
    formula(out, 406, 3300, edge_width(6000, 600))?;
    formula(out, 418, 4300, width)?;
    formula(out, 419, 5400, clear_length(6000, 600))?;
    formula(out, 450, 1800, strip)?;
    formula(out, 451, 2500, width - strip)
}

fn parts<W: Write>(out: &mut W) -> io::Result<()> {
    let r = span_ratio(8000, 6000);
    formula(out, 421, 13330, r)?;
    formula(
        out,
        422,
        9030,
        outer_negative(10000, r, torsion_ratio(b5(), 8000, 180)),
    )?;
    formula(out, 423, 6500, between(10000, r))?;
    formula(out, 424, 6500, inner_negative(10000, r))
}

// Its 15 kN/m² are factored: 01 has them of D 12,500 alone.
fn capitals<W: Write>(out: &mut W) -> io::Result<()> {
    formula(out, 452, 372400, static_moment(12500, 0, 6000, 5754))?;
    formula(out, 453, 296600, static_moment(12500, 0, 7000, 4754))
}

pub fn all<W: Write>(out: &mut W) -> io::Result<()> {
    stiffnesses(out)?;
    torsions(out)?;
    widths(out)?;
    parts(out)?;
    capitals(out)
}
