// The limits on plain numbers, and the sum of what is broken (01, "The verdict").
#![tactic(auto)]

ghost use Rattle.std.specs.Prelude.{◌≡◌, ◌||◌, ◌≤◌, ◌<◌};
ghost use Rattle.limits.specs.Asked.{Neighbours};
ghost use Rattle.limits.specs.Limits.{too_few, unlike, exceeds, overloaded, bit, sum_of};
ghost use Rattle.limits.specs.Places.{limit_at};
ghost use Rattle.limits.specs.Meaning.{number};

// In the order of their numbers, which are what each adds to the verdict.
#[derive(Clone, Copy)]
pub enum Limit {
    Few = 1,
    Slender = 2,
    Uneven = 4,
    Astray = 8,
    Heavy = 16,
    Unbalanced = 32,
    Thin = 64,
}

// In that order too: at k it has limit_at(k) (proofs/Listed).
pub const LIMITS: [Limit; 7] = [
    Limit::Few,
    Limit::Slender,
    Limit::Uneven,
    Limit::Astray,
    Limit::Heavy,
    Limit::Unbalanced,
    Limit::Thin,
];

// What it adds to the verdict.
pub fn number(limit: Limit) -> u32
    ensures { (result ≡ number limit) × (0 < result) }
{
    limit as u32
}

// The k-th, from 0; the last from 6 on.
pub fn limit_at(k: u32) -> Limit
    ensures { result ≡ limit_at k }
{
    let at = k as usize;
    if at < LIMITS.len() {
        LIMITS[at]
    } else {
        Limit::Thin
    }
}

// 1, of the bays along one direction.
pub fn few_along(n: u32) -> bool
    ensures { result ≡ too_few n }
{
    n < 3
}

// 1
// Two numbers, as the clause takes them: it holds of any.
pub fn few(nx: u32, ny: u32) -> bool
    ensures { result ≡ (too_few nx || too_few ny) }
{
    few_along(nx) || few_along(ny)
}

// 4
pub fn unlike(a: u64, b: u64) -> bool
    requires { Neighbours a b }
    ensures { result ≡ unlike a b }
{
    let longer = a.max(b);
    let shorter = a.min(b);
    longer < 3 * (longer - shorter)
}

// 8
pub fn exceeds(offset: u32, span: u64) -> bool
    ensures { result ≡ exceeds offset span }
{
    span < 10 * (offset as u64)
}

// 16
pub fn heavy(dead: u32, live: u32) -> bool
    ensures { result ≡ overloaded dead live }
{
    2 * (dead as u64) < live as u64
}

// `past` of crate stiffness has this form over lengths: a function of both would be an `if` by a third name.
fn bit(broken: bool, n: u32) -> u32
    ensures { (result ≡ bit broken n) × (result ≤ n) }
{
    // Not n times the flag as a number: so both answers are seen.
    if broken { n } else { 0 }
}

// Seven answers one by one, as the clause takes them.
#[tactic(auto, unfolding(crate::specs::Limits::sum_of))]
pub fn sum_of(a: bool, b: bool, c: bool, d: bool, e: bool, g: bool, h: bool) -> u32
    ensures { (result ≡ sum_of a b c d e g h) × (result ≤ 127) }
{
    bit(a, 1) + bit(b, 2) + bit(c, 4) + bit(d, 8) + bit(e, 16) + bit(g, 32) + bit(h, 64)
}
