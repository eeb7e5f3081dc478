// The limits that are looked at place by place: 4 at neighbouring spans, 8 at each column, 64 at each panel.
#![tactic(auto)]

ghost use Rattle.std.specs.Prelude.{◌≡◌, ◌+◌, get_or};
ghost use Rattle.numbers.specs.Tests.{some};
ghost use Rattle.plan.specs.declared.ways.Way.TheVariants.{X as AlongX};
ghost use Rattle.plan.specs.Plan.{bays};
ghost use Rattle.limits.specs.Limits.{some_panel, unlike_next, uneven, lesser_at, astray_along, astray_column, astray, thin_panel};
ghost use Rattle.places.specs.Adjoining.{Adjoining};
ghost use Rattle.places.specs.Asked.{SpansAlong, HasNext, EndOf, HasColumn, Columns, ColumnRow, AtColumn};

use limits::{exceeds, unlike};
use lines::survey::{Lines, Survey};
use numbers::either;
use plan::read::Plan;
use plan::ways::{Way, pick};

// 4, of the n spans along d. An array with its number, not a slice or a `Survey`: `SpansAlong` asks for this, and for no span of the other direction.
pub fn uneven(f: &[u8], d: Way, s: &[u64; 13], n: u32) -> bool
    requires { SpansAlong f.now d s.now n }
    ensures { result ≡ uneven f.now d }
{
    let last = (n - 1) as usize;
    for k in 0..last {
        if unlike(s[k], s[k + 1]) {
            return true;
        }
    }
    false
}

// 4, of span k along d and the next one.
pub fn unlike_next(survey: &Survey, d: Way, k: u32) -> bool
    requires { HasNext survey.now.floor.bytes.now d k }
    ensures { result ≡ unlike_next survey.now.floor.bytes.now d k }
{
    let s = survey.spans_along(d);
    let i = k as usize;
    unlike(s[i], s[i + 1])
}

// Of n spans in a row, the shorter of those that adjoin column k along them.
fn shorter_at(s: &[u64; 13], n: u32, k: u32) -> u64
    requires { EndOf n k }
    ensures { result ≡ lesser_at n (λ i. get_or s.now i 0) k }
{
    let low = (k.max(1) - 1) as usize;
    let high = k.min(n - 1) as usize;
    s[low].min(s[high])
}

// The same for every column along d.
fn adjoining(survey: &Survey, d: Way) -> [u64; 13]
    ensures { Adjoining survey.now.floor.bytes.now d result }
{
    let s = survey.spans_along(d);
    let floor = survey.floor;
    let n = floor.plan().bays_along(d);
    let mut a = [0u64; 13];
    // Not an inclusive range, which tests a flag at each turn.
    for k in 0..n + 1 {
        a[k as usize] = shorter_at(s, n, k);
    }
    a
}

// 8, of the column on y line i and x line j. The shorter spans are two arrays, not one of pairs: i goes over those along x, j over those along y.
fn astray_at(plan: &Plan, x: &[u64; 13], y: &[u64; 13], i: u32, j: u32) -> bool
    requires { AtColumn plan.now.bytes.now plan.now.bays x.now y.now i j }
    ensures { result ≡ astray_column plan.now.bytes.now i j }
{
    let k = i as usize;
    let m = j as usize;
    either(
        exceeds(plan.offset(Way::X, i, j), x[k]),
        exceeds(plan.offset(Way::Y, i, j), y[m]),
    )
}

fn astray_in_row(plan: &Plan, x: &[u64; 13], y: &[u64; 13], j: u32) -> bool
    requires { ColumnRow plan.now.bytes.now plan.now.bays x.now y.now j }
    ensures { result ≡ some (bays plan.now.bytes.now AlongX + 1) (λ i. astray_column plan.now.bytes.now i j) }
{
    (0..plan.bays.x + 1).any(|i| astray_at(plan, x, y, i, j))
}

fn some_astray(plan: &Plan, x: &[u64; 13], y: &[u64; 13]) -> bool
    requires { Columns plan.now.bytes.now plan.now.bays x.now y.now }
    ensures { result ≡ astray plan.now.bytes.now }
{
    (0..plan.bays.y + 1).any(|j| astray_in_row(plan, x, y, j))
}

// 8
pub fn astray(survey: &Survey) -> bool
    ensures { result ≡ astray survey.now.floor.bytes.now }
{
    let x = adjoining(survey, Way::X);
    let y = adjoining(survey, Way::Y);
    let floor = survey.floor;
    some_astray(&floor.plan(), &x, &y)
}

// 8, along d, of the column on y line i and x line j alone.
pub fn astray_along(survey: &Survey, d: Way, i: u32, j: u32) -> bool
    requires { HasColumn survey.now.floor.bytes.now i j }
    ensures { result ≡ astray_along survey.now.floor.bytes.now d i j }
{
    let b = survey.floor.slab.bays;
    let floor = survey.floor;
    let s = survey.spans_along(d);
    let shorter = shorter_at(s, pick(d, b.x, b.y), pick(d, i, j));
    exceeds(floor.plan().offset(d, i, j), shorter)
}

// 64: the panels row by row. 02, Four asks for a walk that is left at the first failure (01, "Forms to follow in each place").
pub fn thin(lines: &Lines) -> bool
    ensures { result ≡ some_panel lines.now.survey.floor.bytes.now (thin_panel lines.now.survey.floor.bytes.now) }
{
    let bays = lines.survey.floor.slab.bays;
    let mut too_thin = false;
    // Each loop has its label, so that a break says which of the two it leaves.
    'rows: for j in 0..bays.y {
        'panels: for i in 0..bays.x {
            too_thin = !lines.survey.thick_enough(&lines.alphas, i, j);
            if too_thin {
                break 'rows;
            }
        }
    }
    too_thin
}
