// Whether a floor is clear: a yes or no that stops at the first broken limit (02, Four). Every limit's test is one that the verdict or the panel
// query uses too.
#![tactic(auto)]

ghost use Rattle.std.specs.Prelude.{◌≡◌};
ghost use Rattle.answers.specs.Answers.{query_answer};
ghost use Rattle.floor.specs.Asked.{Accepted};
ghost use Rattle.lines.specs.Asked.{StiffPanel, NearAlphas};
ghost use Rattle.limits.specs.Limits.{is_clear};
ghost use Rattle.clear.specs.Answers.{clear_of};
ghost use Rattle.clear.specs.Order.{first_panel_broken, broken_without_alpha, panels_broken};

use answers::Refusal;
use extremes::{slender, slender_at, unbalanced, unequal_at};
use floor::refusal::accept;
use limits::{few, heavy};
use lines::survey::{Floor, Lines, Survey};
use numbers::either;
use places::{astray, thin, uneven};
use plan::ways::Way;

// 2, 32 and 64 of the first panel, from its own four lines.
// Survey and α come as two, here and in `panels_broken`: each of these asks another fact of them.
fn first_panel_broken(survey: &Survey, near: &[[u64; 13]; 2]) -> bool
    requires { StiffPanel survey.now.floor.bytes.now near.now 0 0 }
    ensures { result ≡ first_panel_broken survey.now.floor.bytes.now }
{
    if either(slender_at(survey, 0, 0), unequal_at(survey, near, 0, 0)) {
        return true;
    }
    (survey.floor.slab.t as u64) < survey.panel_thickness(near, 0, 0)
}

// 4, 2 and 8, which need no α.
fn broken_without_alpha(survey: &Survey) -> bool
    ensures { result ≡ broken_without_alpha survey.now.floor.bytes.now }
{
    let f = survey.floor.bytes;
    let slab = survey.floor.slab;
    let x = uneven(f, Way::X, survey.spans_along(Way::X), slab.bays.x);
    let y = uneven(f, Way::Y, survey.spans_along(Way::Y), slab.bays.y);
    if either(x, y) {
        return true;
    }
    slender(survey) || astray(survey)
}

// 32 and 64, which need α of every line. That of the four around the first panel is at hand.
fn panels_broken(survey: &Survey, near: &[[u64; 13]; 2]) -> bool
    requires { NearAlphas survey.now.floor.bytes.now near.now }
    ensures { result ≡ panels_broken survey.now.floor.bytes.now }
{
    let lines = Lines::on_from(survey, near);
    unbalanced(&lines) || thin(&lines)
}

// What takes the least time is asked first. The first panel comes before all that goes over the whole floor.
fn is_clear(f: &[u8]) -> bool
    requires { Accepted f.now }
    ensures { result ≡ is_clear f.now }
{
    let floor = Floor::of(f);
    let slab = floor.slab;
    if either(few(slab.bays.x, slab.bays.y), heavy(slab.dead, slab.live)) {
        return false;
    }
    let survey = Survey::on(floor);
    let near = survey.panel_alphas(0, 0);
    if first_panel_broken(&survey, &near) {
        return false;
    }
    if broken_without_alpha(&survey) {
        return false;
    }
    !panels_broken(&survey, &near)
}

// 1 where the floor is accepted and clear, otherwise 0, with its number where it is refused. A number, not a bool: C's `Answer` has one.
pub fn clear(f: &[u8]) -> Result<u32, Refusal>
    ensures { query_answer result ≡ clear_of f.now }
{
    accept(f)?;
    Ok(u32::from(is_clear(f)))
}
