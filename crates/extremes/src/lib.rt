// The limits over all panels at once, by the extremes of the two directions: 2 of the spans, 32 of p and q. And the same limits of one panel, whose
// extremes are its own numbers.
// Some number of one list exceeds k times some number of another exactly where the largest of the one exceeds k times the least of the other.
#![tactic(auto)]

ghost use Rattle.std.specs.Prelude.{◌≡◌, ◌*◌, ◌≤◌, get_or, length, take};
ghost use Rattle.lines.specs.Asked.{InPanel, StiffPanel};
ghost use Rattle.limits.specs.Limits.{some_panel, slender_panel, unbalanced_panel, unbalanced};
ghost use Rattle.numbers.specs.Extremes.{apart};
ghost use Rattle.extremes.specs.Extremes.{ends_of, ends_apart, apart_some, share_at, Shares};
ghost use Rattle.extremes.specs.Asked.{Values, Value, EndsIn, Ratio, Share, BaySharing};

use lines::line::{X, Y, pair_alpha};
use lines::panel::is_everywhere;
use lines::survey::{Lines, Survey};
use numbers::either;
use plan::ways::{Way, across};

// 2: "longer span > 2·shorter"; 32: "p > 5q or q > 5p".
// Plain numbers: that k is small (`Ratio`) matters only where it is multiplied, and a type of k would say no more.
const TWICE: u64 = 2;

const FIVE_TIMES: u64 = 5;

// The least and the most of some values.
#[derive(Clone, Copy)]
struct Ends {
    least: u64,
    most: u64,
}

// The n that a row has; past them it has zeros. A row and its number, which is the floor's, become a slice here.
fn first(row: &[u64; 13], n: u32) -> &[u64]
    requires { Values row.now n }
    ensures { (result.now ≡ take n row.now) × (length result.now ≡ n) }
{
    &row[..n as usize]
}

// `Values` is asked, here, above and in `apart`, and not kept in a type, which would live for this one call.
fn ends_of(values: &[u64]) -> Ends
    requires { Values values.now (length values.now) }
    ensures { result ≡ ends_of (length values.now) (λ i. get_or values.now i 0) }
{
    let mut least = values[0];
    let mut most: u64 = 0;
    for v in values {
        least = least.min(*v);
        most = most.max(*v);
    }
    Ends { least, most }
}

// Does some value between ends x exceed k times some value between ends y, or the other way round?
fn ends_apart(x: Ends, y: Ends, k: u64) -> bool
    requires x_in { EndsIn x }
    requires y_in { EndsIn y }
    requires ratio { Ratio k }
    ensures { result ≡ ends_apart k x y }
{
    either(k * y.least < x.most, k * x.least < y.most)
}

// Of two values.
fn two_apart(x: u64, y: u64, k: u64) -> bool
    requires x_in { Value x }
    requires y_in { Value y }
    requires ratio { Ratio k }
    ensures { result ≡ apart k x y }
{
    ends_apart(Ends { least: x, most: x }, Ends { least: y, most: y }, k)
}

// Is there a pair, one of a's values and one of b's, in which one exceeds k times the other?
fn apart(a: &[u64], b: &[u64], k: u64) -> bool
    requires a_in { Values a.now (length a.now) }
    requires b_in { Values b.now (length b.now) }
    requires ratio { Ratio k }
    ensures { result ≡ apart_some k a.now (length a.now) b.now (length b.now) }
{
    ends_apart(ends_of(a), ends_of(b), k)
}

// 2
pub fn slender(survey: &Survey) -> bool
    ensures { result ≡ some_panel survey.now.floor.bytes.now (slender_panel survey.now.floor.bytes.now) }
{
    let bays = survey.floor.slab.bays;
    let x = survey.spans_along(Way::X);
    let y = survey.spans_along(Way::Y);
    apart(first(x, bays.x), first(y, bays.y), TWICE)
}

// 2, of one panel.
pub fn slender_at(survey: &Survey, i: u32, j: u32) -> bool
    requires { InPanel survey.now.floor.bytes.now i j }
    ensures { result ≡ slender_panel survey.now.floor.bytes.now i j }
{
    let x = survey.spans_along(Way::X);
    let y = survey.spans_along(Way::Y);
    two_apart(x[i as usize], y[j as usize], TWICE)
}

// p or q of one bay.
fn share(pair: u64, span: u64) -> u64
    requires { Share pair span }
    ensures { (result ≡ pair * (span * span)) × (result ≤ 57600000000000000) }
{
    pair * (span * span)
}

// Of bay k, from α of the lines on either side of it. Two arrays, not one of pairs: there is one line more than there are bays.
fn share_at(a: &[u64; 13], s: &[u64; 13], k: u32) -> u64
    requires { BaySharing a.now s.now k }
    ensures { (result ≡ share_at a.now s.now k) × (result ≤ 57600000000000000) }
{
    let i = k as usize;
    share(pair_alpha(a, k), s[i])
}

// Of each of the bays across the lines along d: p where the lines run along x, q where they run along y.
fn shares(lines: &Lines, d: Way) -> [u64; 13]
    ensures { Shares lines.now.survey.floor.bytes.now d result }
{
    let floor = lines.survey.floor;
    let a = lines.alphas_along(d);
    let s = lines.survey.spans_along(across(d));
    let mut p = [0u64; 13];
    for k in 0..floor.plan().last_line(d) {
        p[k as usize] = share_at(a, s, k);
    }
    p
}

// 32
pub fn unbalanced(lines: &Lines) -> bool
    ensures { result ≡ unbalanced lines.now.survey.floor.bytes.now }
{
    let slab = lines.survey.floor.slab;
    let p = shares(lines, Way::X);
    let q = shares(lines, Way::Y);
    is_everywhere(slab.layout) && apart(first(&q, slab.bays.x), first(&p, slab.bays.y), FIVE_TIMES)
}

// 32, of one panel with α of its four lines. Not of a `Lines`, which would need α of every line.
pub fn unequal_at(survey: &Survey, alphas: &[[u64; 13]; 2], i: u32, j: u32) -> bool
    requires { StiffPanel survey.now.floor.bytes.now alphas.now i j }
    ensures { result ≡ unbalanced_panel survey.now.floor.bytes.now i j }
{
    let p = share_at(&alphas[X], survey.spans_along(Way::Y), j);
    let q = share_at(&alphas[Y], survey.spans_along(Way::X), i);
    is_everywhere(survey.floor.slab.layout) && two_apart(q, p, FIVE_TIMES)
}
