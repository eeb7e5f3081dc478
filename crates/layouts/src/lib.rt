// Rules that every span or line of both directions keeps (refusals 6 and 7), and the layout of the beams.
#![tactic(auto)]

ghost use Rattle.std.specs.Prelude.{◌≡◌, ◌≤◌, ◌*◌, ◌||◌, eqb, ltb, leb};
ghost use Rattle.layouts.specs.declared.Rule.TheVariants.{Columns, Beams, Depth};
ghost use Rattle.layouts.specs.Asked.{Bayed, Regular};
ghost use Rattle.layouts.specs.Layouts.{beam_on, outer_line, beam_fits, keeps, asked, kept_along, kept, layout_of, told_by, told_layout, beams_ok};

use numbers::both;
use plan::read::Plan;
use plan::ways::Way;

// Beams on every line; on the four outer lines only; on none.
#[derive(Clone, Copy)]
pub enum Layout {
    Everywhere,
    OuterOnly,
    Bare,
}

// What is asked of a span or a line. An enum, not a closure: the clauses of `kept` and `beams_ok` and the theorems on 6 and 7 name each rule.
#[derive(Clone, Copy)]
pub enum Rule {
    Columns,
    Beams(Layout),
    Depth,
}

fn beam_on(layout: Layout, outer: bool) -> bool
    ensures { result ≡ beam_on layout outer }
{
    match layout {
        Layout::Everywhere => true,
        Layout::OuterOnly => outer,
        Layout::Bare => false,
    }
}

pub fn outer_line(last: u32, l: u32) -> bool
    ensures { result ≡ outer_line last l }
{
    l == 0 || l == last
}

// A width of 0 says here and below that there is no beam. It is no Option: the file has it so, and the clauses speak of it.
fn beam_fits(layout: Layout, width: u32, last: u32, l: u32) -> bool
    ensures { result ≡ beam_fits layout width last l }
{
    (0 < width) == beam_on(layout, outer_line(last, l))
}

fn column_fits(column: u32, span: u32) -> bool
    ensures { result ≡ leb (2 * column) span }
{
    2 * (column as u64) <= span as u64
}

fn deeper(width: u32, depth: u32, t: u32) -> bool
    ensures { result ≡ (eqb width 0 || ltb t depth) }
{
    width == 0 || t < depth
}

fn column_at(plan: &Plan, d: Way, i: u32) -> bool
    ensures { result ≡ keeps plan.now.bytes.now d Columns i }
{
    column_fits(plan::column(plan.bytes, d), plan.span(d, i))
}

fn beam_at(plan: &Plan, d: Way, layout: Layout, l: u32) -> bool
    ensures { result ≡ keeps plan.now.bytes.now d (Beams layout) l }
{
    beam_fits(layout, plan.beam_width(d, l), plan.last_line(d), l)
}

fn depth_at(plan: &Plan, d: Way, l: u32) -> bool
    ensures { result ≡ keeps plan.now.bytes.now d Depth l }
{
    deeper(
        plan.beam_width(d, l),
        plan.beam_depth(d, l),
        plan::thickness(plan.bytes),
    )
}

// Plan, way and rule come one by one, here and below, as `keeps` of specs/ takes them.
fn keeps(plan: &Plan, d: Way, rule: Rule, i: u32) -> bool
    ensures { result ≡ keeps plan.now.bytes.now d rule i }
{
    match rule {
        Rule::Columns => column_at(plan, d, i),
        Rule::Beams(layout) => beam_at(plan, d, layout, i),
        Rule::Depth => depth_at(plan, d, i),
    }
}

fn asked(plan: &Plan, d: Way, rule: Rule) -> u32
    ensures { (result ≡ asked plan.now.bytes.now d rule) × (result ≤ 13) }
{
    match rule {
        Rule::Columns => plan.bays_along(d),
        Rule::Beams(_) => plan.last_line(d) + 1,
        Rule::Depth => plan.last_line(d) + 1,
    }
}

fn kept_along(plan: &Plan, d: Way, rule: Rule) -> bool
    ensures { result ≡ kept_along plan.now.bytes.now d rule }
{
    (0..asked(plan, d, rule)).all(|i| keeps(plan, d, rule, i))
}

pub fn kept(plan: &Plan, rule: Rule) -> bool
    ensures { result ≡ kept plan.now.bytes.now rule }
{
    both(
        kept_along(plan, Way::X, rule),
        kept_along(plan, Way::Y, rule),
    )
}

// The layout as three beams tell it: on x line 0, which is outer, and on line 1 of either direction, which is outer only where it is the last.
fn told_by(first: u32, x: u32, y: u32) -> Layout
    ensures { result ≡ told_by first x y }
{
    if first == 0 {
        return Layout::Bare;
    }
    if x == 0 {
        return Layout::OuterOnly;
    }
    if y == 0 {
        return Layout::OuterOnly;
    }
    Layout::Everywhere
}

fn told(plan: &Plan) -> Layout
    ensures { result ≡ told_layout plan.now.bytes.now }
{
    told_by(
        plan.beam_width(Way::X, 0),
        plan.beam_width(Way::X, 1),
        plan.beam_width(Way::Y, 1),
    )
}

// The layout of a floor whose layout is allowed.
pub fn layout_told(plan: &Plan) -> Layout
    requires { Regular plan.now.bytes.now }
    ensures { result ≡ layout_of plan.now.bytes.now }
{
    told(plan)
}

// 7: the layout is allowed, and every beam is deeper than the slab.
pub fn beams_ok(plan: &Plan) -> bool
    requires { Bayed plan.now.bytes.now }
    ensures { result ≡ beams_ok plan.now.bytes.now }
{
    both(kept(plan, Rule::Beams(told(plan))), kept(plan, Rule::Depth))
}
