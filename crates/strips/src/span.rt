// A span of a frame: its clear length, its static moment, and the ratios A, R and B that share its moments out.
ghost use Rattle.std.specs.Prelude.{◌≡◌, ◌≤◌};
ghost use Rattle.strips.specs.Asked.{SpanSizes, Loaded, Stiffened, Proportioned, Twisted};
ghost use Rattle.strips.specs.Moments.{clear_length, static_moment};
ghost use Rattle.strips.specs.Ratios.{stiffness_ratio, span_ratio, torsion_ratio};

use numbers::rounded_up;

#[tactic(auto, unfolding(crate::specs::Moments::clear_length))]
pub fn clear_length(l1: u64, column: u64) -> u64
    requires { SpanSizes l1 column }
    ensures { (result ≡ clear_length l1 column) × (result ≤ 12000) }
{
    (l1 - column).max(65 * l1 / 100)
}

// Mo in N·m.
#[tactic(auto, using(crate::proofs::Moments::moment_most), unfolding(crate::specs::Moments::static_moment))]
pub fn static_moment(dead: u64, live: u64, width: u64, clear: u64) -> u64
    requires { Loaded dead live width clear }
    ensures { (result ≡ static_moment dead live width clear) × (result ≤ 25056000) }
{
    rounded_up(
        (12 * dead + 16 * live) * width * (clear * clear),
        80000000000,
    )
}

// A, in ten-thousandths.
#[tactic(auto, unfolding(crate::specs::Ratios::stiffness_ratio))]
pub fn stiffness_ratio(alpha: u64, l2: u64, l1: u64) -> u64
    requires { Stiffened alpha l2 l1 }
    ensures { (result ≡ stiffness_ratio alpha l2 l1) × (result ≤ 10000) }
{
    (alpha * l2 / l1).min(10000)
}

// R, in ten-thousandths.
#[tactic(auto, unfolding(crate::specs::Ratios::span_ratio))]
pub fn span_ratio(l2: u64, l1: u64) -> u64
    requires { Proportioned l2 l1 }
    ensures { (result ≡ span_ratio l2 l1) × (5000 ≤ result) × (result ≤ 20000) }
{
    10000 * l2 / l1
}

// B, in ten-thousandths.
#[tactic(auto, unfolding(crate::specs::Ratios::torsion_ratio))]
pub fn torsion_ratio(torsion: u64, l2: u64, thick: u64) -> u64
    requires { Twisted torsion l2 thick }
    ensures { (result ≡ torsion_ratio torsion l2 thick) × (result ≤ 25000) }
{
    (200 * torsion / (l2 * (thick * thick * thick))).min(25000)
}
