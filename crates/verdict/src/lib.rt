// What is broken in a floor (01, "The verdict"), and the least thickness of its panels.
#![tactic(auto)]

ghost use Rattle.std.specs.Prelude.{◌≡◌, ◌≤◌};
ghost use Rattle.answers.specs.Answers.{query_answer};
ghost use Rattle.floor.specs.Asked.{Accepted};
ghost use Rattle.lines.specs.Lines.{panel_thickness};
ghost use Rattle.limits.specs.Limits.{verdict};
ghost use Rattle.verdict.specs.Asked.{InPanel};
ghost use Rattle.verdict.specs.Answers.{has_panel, panel_of};

use answers::Refusal;
use extremes::{slender, unbalanced};
use floor::refusal::accept;
use limits::{few, heavy, sum_of};
use lines::survey::{Lines, Survey};
use numbers::{both, either};
use places::{astray, thin, uneven};
use plan::ways::Way;

// The sum of what is broken, for a caller who has the floor's spans and α at hand.
pub fn broken(lines: &Lines) -> u32
    ensures { (result ≡ verdict lines.now.survey.floor.bytes.now) × (result ≤ 127) }
{
    let survey = &lines.survey;
    let f = survey.floor.bytes;
    let slab = survey.floor.slab;
    let x = uneven(f, Way::X, survey.spans_along(Way::X), slab.bays.x);
    let y = uneven(f, Way::Y, survey.spans_along(Way::Y), slab.bays.y);
    sum_of(
        few(slab.bays.x, slab.bays.y),
        slender(survey),
        either(x, y),
        astray(survey),
        heavy(slab.dead, slab.live),
        unbalanced(lines),
        thin(lines),
    )
}

pub fn verdict(f: &[u8]) -> u32
    requires { Accepted f.now }
    ensures { (result ≡ verdict f.now) × (result ≤ 127) }
{
    broken(&Lines::of(Survey::of(f)))
}

// Any two numbers one by one, here and below, as C hands them.
fn has_panel(f: &[u8], x: u64, y: u64) -> bool
    ensures { result ≡ has_panel f.now x y }
{
    let nx = plan::bays(f, Way::X);
    let ny = plan::bays(f, Way::Y);
    both(x < nx as u64, y < ny as u64)
}

// With α of the panel's own four lines.
fn least_of(f: &[u8], x: u64, y: u64) -> u32
    requires { InPanel f.now x y }
    ensures { result ≡ panel_thickness f.now x y }
{
    let survey = Survey::of(f);
    let i = x as u32;
    let j = y as u32;
    let near = survey.panel_alphas(i, j);
    survey.panel_thickness(&near, i, j) as u32
}

// The least thickness, in mm, of the panel of x bay x and y bay y: 1 to 7 are tried, then 10.
pub fn panel(f: &[u8], x: u64, y: u64) -> Result<u32, Refusal>
    ensures { query_answer result ≡ panel_of f.now x y }
{
    accept(f)?;
    if !has_panel(f, x, y) {
        return Err(Refusal::NoPanel);
    }
    Ok(least_of(f, x, y))
}
