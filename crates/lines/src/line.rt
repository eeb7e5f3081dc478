// The lines of an accepted floor: the spans between them, and α.
ghost use Rattle.std.specs.Prelude.{◌≡◌, cond, ◌-◌, ◌≤◌, ◌<◌, eqb, get_or, length};
ghost use Rattle.plan.specs.Asked.{Sized};
ghost use Rattle.plan.specs.Plan.{last_line};
ghost use Rattle.plan.specs.Ways.{across};
ghost use Rattle.floor.specs.Asked.{Accepted};
ghost use Rattle.lines.specs.Lines.{below, line_alpha};
ghost use Rattle.lines.specs.Rows.{row_of, Spans, Alphas, SameElse, AllSpans, AlphaRows, PanelAlphaRows, pair_at};
ghost use Rattle.lines.specs.Asked.{InPanel, NearAlphas, TwoAlphas};

use crate::survey::{Floor, Lines, Survey};
use layouts::outer_line;
use plan::read::{Bays, Plan};
use plan::ways::{Way, across, pick};
use stiffness::line::{alpha, frame_width};
use stiffness::section::Section;

// The rows of the two directions. An array of two, not a struct of x and y: what callers are asked (`StiffPanel`, `NearAlphas`) speaks of rows.
// Not by the enum `Way`: an array is indexed by a number, as `row_of` of specs/ does it.
pub const X: usize = 0;

pub const Y: usize = 1;

// The span on the low side of line l: here from the file, in `low_side` from a row, so that the two share only the test for line 0.
// 0 past an outer line in both, no Option: the widths of 01 are sums over both sides.
pub fn below(f: &[u8], bays: Bays, d: Way, l: u32) -> u32
    requires { Sized f.now bays }
    ensures { result ≡ below f.now d l }
{
    if l == 0 {
        0
    } else {
        Plan { bytes: f, bays }.span(across(d), l - 1)
    }
}

// Every span along d, and zeros past the last.
fn spans_along(plan: &Plan, d: Way) -> [u64; 13]
    ensures { Spans plan.now.bytes.now d result }
{
    let mut s = [0u64; 13];
    for k in 0..13 {
        s[k as usize] = plan.span(d, k) as u64;
    }
    s
}

// A row for each direction, read once for all lines and panels.
pub fn all_spans(plan: &Plan) -> [[u64; 13]; 2]
    ensures { AllSpans plan.now.bytes.now result }
{
    [spans_along(plan, Way::X), spans_along(plan, Way::Y)]
}

// Of the spans across the lines: the one on the low side of line l, 0 past an outer line.
fn low_side(s: &[u64; 13], l: u32) -> u64
    requires { l < 13 }
    ensures { result ≡ cond (eqb l 0) 0 (get_or s.now (l - 1) 0) }
{
    if l == 0 {
        return 0;
    }
    let i = (l - 1) as usize;
    s[i]
}

// The row of one direction.
fn row_along(rows: &[[u64; 13]; 2], d: Way) -> &[u64; 13]
    ensures { result.now ≡ row_of rows.now d }
{
    match d {
        Way::X => &rows[X],
        Way::Y => &rows[Y],
    }
}

impl<'a> Survey<'a> {
    pub fn of(bytes: &'a [u8]) -> Survey<'a>
        requires { Accepted bytes.now }
        ensures { result.floor.bytes.now ≡ bytes.now }
    {
        Survey::on(Floor::of(bytes))
    }

    pub fn on(floor: Floor<'a>) -> Survey<'a>
        ensures { result.floor ≡ floor.entry }
    {
        let spans = all_spans(&floor.plan());
        Survey { floor, spans }
    }

    // Every span along d, and zeros past the last.
    pub fn spans_along(&self, d: Way) -> &[u64; 13]
        ensures { Spans self.now.floor.bytes.now d result.now }
    {
        row_along(&self.spans, d)
    }

    // α of line l along d, from the spans across it.
    fn line_alpha(&self, d: Way, l: u32) -> u64
        requires { l ≤ last_line self.now.floor.bytes.now d }
        ensures { (result ≡ line_alpha self.now.floor.bytes.now d l) × (result ≤ 200000000) }
    {
        let slab = self.floor.slab;
        let plan = self.floor.plan();
        let outer = outer_line(plan.last_line(d), l);
        let column = pick(d, slab.cy, slab.cx);
        let s = self.spans_along(across(d));
        let i = l as usize;
        let width = frame_width(outer, low_side(s, l), s[i], column as u64);
        let b = plan.beam_width(d, l);
        let h = plan.beam_depth(d, l);
        alpha(outer, Section::of(b as u64, h as u64), width, slab.t as u64)
    }

    // α of the lines `from` to `to` along d, each put into its place. Two numbers, as `Alphas` has them: a `Range` would name a line past the last.
    fn fill_along(&self, d: Way, a: &mut [u64; 13], from: u32, to: u32)
        requires inside { to ≤ last_line self.now.floor.bytes.now d }
        requires a_len { length a.old ≡ 13 }
        ensures { Alphas self.now.floor.bytes.now d from to a.new × SameElse from to a.old a.new × (length a.new ≡ 13) }
    {
        // Not an inclusive range, which tests a flag at each turn.
        for l in from..to + 1 {
            a[l as usize] = self.line_alpha(d, l);
        }
    }

    // `alphas`, `panel_alphas` and `remaining_alphas` fill two rows each, by `fill_along`. They are three, since each promises another thing of the rows.

    // A row for each direction. A line borders two rows of panels, so each is worked out once for all of them.
    pub fn alphas(&self) -> [[u64; 13]; 2]
        ensures { AlphaRows self.now.floor.bytes.now result }
    {
        let bays = self.floor.slab.bays;
        let mut x = [0u64; 13];
        let mut y = [0u64; 13];
        self.fill_along(Way::X, &mut x, 0, bays.y);
        self.fill_along(Way::Y, &mut y, 0, bays.x);
        [x, y]
    }

    // α of the four lines around one panel, and 0 for every other.
    pub fn panel_alphas(&self, i: u32, j: u32) -> [[u64; 13]; 2]
        requires { InPanel self.now.floor.bytes.now i j }
        ensures { PanelAlphaRows self.now.floor.bytes.now i j result }
    {
        let mut x = [0u64; 13];
        let mut y = [0u64; 13];
        self.fill_along(Way::X, &mut x, j, j + 1);
        self.fill_along(Way::Y, &mut y, i, i + 1);
        [x, y]
    }

    // α of every line, where that of the four lines around the first panel is at hand.
    pub fn remaining_alphas(&self, near: &[[u64; 13]; 2]) -> [[u64; 13]; 2]
        requires { NearAlphas self.now.floor.bytes.now near.now }
        ensures { AlphaRows self.now.floor.bytes.now result }
    {
        let bays = self.floor.slab.bays;
        let mut x = near[X];
        let mut y = near[Y];
        self.fill_along(Way::X, &mut x, 2, bays.y);
        self.fill_along(Way::Y, &mut y, 2, bays.x);
        [x, y]
    }
}

impl<'a> Lines<'a> {
    pub fn of(survey: Survey<'a>) -> Lines<'a>
        ensures { result.survey ≡ survey.entry }
    {
        let alphas = survey.alphas();
        Lines { survey, alphas }
    }

    // Where α of the four lines around the first panel is at hand.
    // The survey is lent: its caller has one by reference, and a copy of it on the way would only take stack.
    pub fn on_from(survey: &Survey<'a>, near: &[[u64; 13]; 2]) -> Lines<'a>
        requires { NearAlphas survey.now.floor.bytes.now near.now }
        ensures { result.survey ≡ survey.now }
    {
        let alphas = survey.remaining_alphas(near);
        Lines {
            survey: *survey,
            alphas,
        }
    }

    // α of every line along d.
    pub fn alphas_along(&self, d: Way) -> &[u64; 13]
        ensures { Alphas self.now.survey.floor.bytes.now d 0 (last_line self.now.survey.floor.bytes.now d) result.now }
    {
        row_along(&self.alphas, d)
    }
}

// The sum of α of the two lines beside bay k across them.
pub fn pair_alpha(a: &[u64; 13], k: u32) -> u64
    requires { TwoAlphas a.now k }
    ensures { (result ≡ pair_at a.now k) × (result ≤ 400000000) }
{
    let low = k as usize;
    let high = low + 1;
    a[low] + a[high]
}
