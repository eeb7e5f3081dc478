// Column strip parts of 10000, and a section total divided between the strips, the beam and the slab. A, R and B
// come one by one, and so do a section's numbers, as the clauses of these functions take them.
ghost use Rattle.std.specs.Prelude.{◌≡◌, ◌≤◌};
ghost use Rattle.numbers.specs.Rounding.{plus_floor};
ghost use Rattle.strips.specs.Asked.{Floored, Crossing, ShareRatios, OuterRatios, Fraction, SectionShare};
ghost use Rattle.strips.specs.Strips.{part, between, inner_negative, outer_negative, share, ShareOf, column_strip, even_strip, split};

// k + floor((p − q)/d), the floor toward minus infinity.
fn plus_floor(k: u64, p: u64, q: u64, d: u64) -> u64
    requires { Floored k p q d }
    ensures { result ≡ plus_floor k p q d }
{
    (k * d + p - q) / d
}

// At A 0 the part is base, and so it is at every A where R is the crossover.
#[tactic(auto, using(crate::proofs::Parts::part_in), unfolding(crate::specs::Strips::part))]
fn part(base: u64, crossover: u64, a: u64, r: u64) -> u64
    requires { Crossing base crossover × ShareRatios a r }
    ensures { (result ≡ part base crossover a r) × (4500 ≤ result) × (result ≤ 9000) }
{
    plus_floor(base, 3 * a * crossover, 3 * a * r, 100000)
}

pub fn between(a: u64, r: u64) -> u64
    requires { ShareRatios a r }
    ensures { (result ≡ between a r) × (4500 ≤ result) × (result ≤ 9000) }
{
    part(6000, 15000, a, r)
}

pub fn inner_negative(a: u64, r: u64) -> u64
    requires { ShareRatios a r }
    ensures { (result ≡ inner_negative a r) × (4500 ≤ result) × (result ≤ 9000) }
{
    part(7500, 10000, a, r)
}

#[tactic(auto, using(crate::proofs::Parts::outer_in), unfolding(crate::specs::Strips::outer_negative))]
pub fn outer_negative(a: u64, r: u64, b: u64) -> u64
    requires { OuterRatios a r b }
    ensures { (result ≡ outer_negative a r b) × (4500 ≤ result) × (result ≤ 10000) }
{
    plus_floor(
        10000,
        b * (12 * a * 10000),
        b * (12 * a * r + 1000000000),
        10000000000,
    )
}

// What the strips, the beam and the slab take of a section total, N·cm.
#[derive(Clone, Copy)]
pub struct Strips {
    pub total: u32,
    pub column: u32,
    pub middle: u32,
    pub beam: u32,
    pub slab: u32,
}

// n parts of d of a total, rounded down.
fn share(total: u64, n: u64, d: u64) -> u64
    requires { Fraction total n d }
    ensures { ShareOf total n d result }
{
    total * n / d
}

// The column strip takes n parts of d of the total; the middle strip and the slab are what is left.
#[tactic(auto, unfolding(crate::specs::Strips::split, crate::specs::Strips::beam_share))]
fn divided(total: u64, n: u64, d: u64, a: u64) -> Strips
    requires { SectionShare total n d a }
    ensures { result ≡ split total (share total n d) a }
{
    let column = share(total, n, d);
    let beam = share(column, 85 * a / 100, 10000);
    Strips {
        total: total as u32,
        column: column as u32,
        middle: (total - column) as u32,
        beam: beam as u32,
        slab: (column - beam) as u32,
    }
}

// Evenly: the column strip takes as much of the total as its width is of the frame width.
pub fn evenly(total: u64, strip: u64, width: u64, a: u64) -> Strips
    requires { SectionShare total strip width a }
    ensures { result ≡ split total (even_strip total strip width) a }
{
    divided(total, strip, width, a)
}

// By a column strip part of 10000.
pub fn by_part(total: u64, part: u64, a: u64) -> Strips
    requires { SectionShare total part 10000 a }
    ensures { result ≡ split total (column_strip total part) a }
{
    divided(total, part, 10000, a)
}
