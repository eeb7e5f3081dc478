// Least thickness of a panel.
#![tactic(auto)]

ghost use Rattle.std.specs.Prelude.{◌≡◌, cond, ◌*◌, ◌/◌, ◌≤◌, ◌<◌, max, leb};
ghost use Rattle.numbers.specs.Rounding.{up, Quotient};
ghost use Rattle.thickness.specs.Asked.{Answered, ByTable, Middle, Multiple, PanelSizes, SlabMost};
ghost use Rattle.thickness.specs.LeastThickness.{grade_row, panel_column, divisor, stiff, middling, tabled, answer_of01, raises, raised, least_thickness, Asks, Thinnest};

use numbers::rounded_up;

// Outer panel without edge beams, outer with, inner.
#[derive(Clone, Copy)]
pub enum PanelPlace {
    Bare,
    Edged,
    Inner,
}

// What the least thickness of a panel is worked out from; sn and ln are its shorter and longer clear spans, and `weak` says that it has an
// outer line with α below 8000 (02, Three). Its ranges stand in the clauses of least_thickness and enough, not in the type.
#[derive(Clone, Copy)]
pub struct Panel {
    pub everywhere: bool,
    pub place: PanelPlace,
    pub fy: u64,
    pub sn: u64,
    pub ln: u64,
    pub s: u64,
    pub weak: bool,
}

// n by grade 280, 420, 520, and by place.
const DIVISORS: [[u64; 3]; 3] = [[33, 36, 36], [30, 33, 33], [28, 31, 31]];

fn grade_row(fy: u64) -> usize
    ensures { (result ≡ grade_row fy) × (result < 3) }
{
    match fy {
        280 => 0,
        420 => 1,
        _ => 2,
    }
}

fn panel_column(place: PanelPlace) -> usize
    ensures { (result ≡ panel_column place) × (result < 3) }
{
    place as usize
}

#[tactic(auto, unfolding(crate::specs::LeastThickness::divisor))]
pub fn divisor(fy: u64, place: PanelPlace) -> u64
    ensures { (result ≡ divisor fy place) × (28 ≤ result) × (result ≤ 36) }
{
    let row = grade_row(fy);
    let column = panel_column(place);
    DIVISORS[row][column]
}

// What a rule asks of t: n ≤ t·d, and t is `least` or more.
#[derive(Clone, Copy)]
struct Bound {
    n: u64,
    d: u64,
    least: u64,
}

impl Bound {
    // The least t that it allows.
    fn reach(self) -> u64
        requires { Quotient self.n self.d }
        ensures { result ≡ max self.least (up self.n self.d) }
    {
        self.least.max(rounded_up(self.n, self.d))
    }

    // Whether it allows t, with no division.
    fn reaches(self, t: u64) -> bool
        requires { Multiple self.d t }
        ensures { result ≡ leb (max self.least (up self.n self.d)) t }
    {
        self.least <= t && self.n <= t * self.d
    }
}

#[tactic(auto, unfolding(crate::specs::LeastThickness::stiff))]
fn stiff(fy: u64, sn: u64, ln: u64) -> Bound
    requires { PanelSizes fy sn ln }
    ensures { Asks (stiff fy sn ln) result }
{
    Bound {
        n: ln * sn * (1120 + fy),
        d: 1400 * (36 * sn + 9 * ln),
        least: 90,
    }
}

#[tactic(auto, unfolding(crate::specs::LeastThickness::middling))]
fn middling(fy: u64, sn: u64, ln: u64, s: u64) -> Bound
    requires { Middle fy sn ln s }
    ensures { Asks (middling fy sn ln s) result }
{
    Bound {
        n: 40000 * ln * sn * (1120 + fy),
        d: 1400 * (1440000 * sn + 5 * ln * (s - 8000)),
        least: 125,
    }
}

#[tactic(auto, unfolding(crate::specs::LeastThickness::tabled))]
fn tabled(divisor: u64, ln: u64) -> Bound
    requires { ByTable divisor ln }
    ensures { Asks (tabled divisor ln) result }
{
    Bound {
        n: ln,
        d: divisor,
        least: 125,
    }
}

// 01: with beams everywhere, "S > 80000", the stiffness of a panel's four lines together.
const STIFF_ABOVE: u64 = 80000;

#[tactic(auto, unfolding(crate::specs::LeastThickness::answer_of01))]
fn rule_of(p: Panel) -> Bound
    requires { PanelSizes p.fy p.sn p.ln }
    ensures { Asks (answer_of01 p) result }
{
    if p.everywhere {
        if STIFF_ABOVE < p.s {
            return stiff(p.fy, p.sn, p.ln);
        }
        if 8000 < p.s {
            return middling(p.fy, p.sn, p.ln, p.s);
        }
    }
    let place = p.place;
    tabled(divisor(p.fy, place), p.ln)
}

// Whether the panel needs ten percent more than the answer of 01.
#[tactic(auto, unfolding(crate::specs::LeastThickness::raises))]
fn raises(p: Panel) -> bool
    ensures { result ≡ raises p }
{
    p.weak && p.everywhere && 8000 < p.s
}

fn ten_percent_more(answer: u64) -> u64
    requires { Answered answer }
    ensures { result ≡ up (11 * answer) 10 }
{
    rounded_up(11 * answer, 10)
}

// Where it is needed.
#[tactic(auto, unfolding(crate::specs::LeastThickness::raised))]
fn raise(needed: bool, answer: u64) -> u64
    requires { Answered answer }
    ensures { result ≡ cond needed (raised answer) answer }
{
    if needed {
        ten_percent_more(answer)
    } else {
        answer
    }
}

// The largest answer of 01 that a slab of t allows.
fn allows(needed: bool, t: u64) -> u64
    requires { SlabMost t }
    ensures { (result ≡ cond needed (10 * t / 11) t) × (result ≤ 500) }
{
    if needed { 10 * t / 11 } else { t }
}

// The least whole t in mm.
#[tactic(auto, using(crate::proofs::Thinnest::answered))]
pub fn least_thickness(p: Panel) -> u64
    requires { PanelSizes p.fy p.sn p.ln }
    ensures { Thinnest p result }
{
    raise(raises(p), rule_of(p).reach())
}

// Whether a slab's t is enough, which is asked of every panel.
#[tactic(auto, using(crate::proofs::Thinnest::allowed), unfolding(crate::specs::LeastThickness::least_thickness))]
pub fn enough(p: Panel, t: u64) -> bool
    requires panel_sizes { PanelSizes p.fy p.sn p.ln }
    requires slab_most { SlabMost t }
    ensures { result ≡ leb (least_thickness p) t }
{
    rule_of(p).reaches(allows(raises(p), t))
}
