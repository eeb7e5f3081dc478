// Small decisions that every layer makes.
#![tactic(auto)]

ghost use Rattle.std.specs.Prelude.{◌≡◌, ◌&&◌, ◌||◌};
ghost use Rattle.numbers.specs.Rounding.{up, Quotient};
ghost use Rattle.numbers.specs.Tests.{within};

// Both, or either, of two tests that are already answered, so that the caller has no branch and its proof no cases.
pub fn both(a: bool, b: bool) -> bool
    ensures { result ≡ (a && b) }
{
    a && b
}

pub fn either(a: bool, b: bool) -> bool
    ensures { result ≡ (a || b) }
{
    a || b
}

// least..most
pub fn within(least: u64, most: u64, x: u64) -> bool
    ensures { result ≡ within least most x }
{
    (least..=most).contains(&x)
}

// n/d, rounded up.
pub fn rounded_up(n: u64, d: u64) -> u64
    requires { Quotient n d }
    ensures { result ≡ up n d }
{
    (n + (d - 1)) / d
}
