// Document 000, Examples (1) to (3): the inner longitudinal frame of the floor with beams. Its moments are asked of the whole floor.
ghost use Rattle.std.specs.Prelude.{◌≤◌};

use crate::areas::grade_420;
use crate::compare::{figure, formula};
use std::io;
use std::io::Write;
use stiffness::line::{column_strip_width, frame_width};
use stiffness::section::{Section, edge_torsion};
use strips::span::{clear_length, span_ratio, torsion_ratio};
use strips::strip::{between, inner_negative, outer_negative};

// A constant C of the documents in 1,000 mm⁴: 01's T is 300·C.
pub fn thousands(torsion: u64) -> u64 {
    torsion / 300000
}

// T of the outer beam B3 across the frame.
fn torsion() -> u64
    ensures { result ≤ 440000000000000 }
{
    edge_torsion(Section::of(300, 600), 165)
}

// B of the frame's outer ends.
fn ratio() -> u64
    ensures { result ≤ 25000 }
{
    torsion_ratio(torsion(), 6000, 165)
}

fn ratios<W: Write>(out: &mut W) -> io::Result<()> {
    formula(out, 112, 7230, clear_length(7600, 375))?;
    formula(out, 139, 7900, span_ratio(6000, 7600))?;
    formula(
        out,
        142,
        3159000,
        thousands(Section::of(300, 435).torsion() + Section::of(735, 165).torsion()),
    )?;
    formula(out, 143, 4195000, thousands(torsion()))?;
    formula(out, 144, 9300, ratio())
}

fn parts<W: Write>(out: &mut W) -> io::Result<()> {
    let r = span_ratio(6000, 7600);
    formula(out, 140, 8130, inner_negative(10000, r))?;
    formula(out, 141, 8130, between(10000, r))?;
    formula(out, 145, 9304, outer_negative(10000, r, ratio()))
}

fn widths<W: Write>(out: &mut W) -> io::Result<()> {
    let strip = column_strip_width(false, 7600, 6000, 6000, 370);
    formula(out, 146, 3000, strip)?;
    formula(out, 147, 3000, frame_width(false, 6000, 6000, 370) - strip)
}

pub fn all<W: Write>(out: &mut W) -> io::Result<()> {
    ratios(out)?;
    parts(out)?;
    widths(out)?;
    figure(out, 148, 891, grade_420(1221400, 3000, 165, 133, 30).value)
}
