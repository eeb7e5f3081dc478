// What a query may hold, and the depth that it stands for.
ghost use Rattle.std.specs.Prelude.{◌≡◌};
ghost use Rattle.steel.specs.Query.{InRange, depth_listed, in_range, depth_of};

use numbers::{both, within};
use records::ranges::materials_ok;

// The moment m, in N·cm, on a width b of a slab of thickness t, at the depth d or, for 0, the default one.
// d is no Option: 0 is what C passes, and `depth_of` and `depth_listed` of specs/ take any number.
#[derive(Clone, Copy)]
pub struct Query {
    pub m: u64,
    pub b: u64,
    pub t: u64,
    pub d: u64,
    pub fc: u64,
    pub fy: u64,
}

// 50..t − 25, or 0. A slab thinner than 25 counts as 25 here: no depth from 50 on lies in it.
fn depth_listed(d: u64, t: u64) -> bool
    ensures { result ≡ depth_listed d t }
{
    let inside = within(50, t.saturating_sub(25), d);
    inside || d == 0
}

pub fn in_range(q: Query) -> bool
    ensures { result ≡ in_range q }
{
    let slab = both(within(90, 500, q.t), depth_listed(q.d, q.t));
    let loaded = both(q.m <= 2000000000, within(1, 12000, q.b));
    both(loaded, both(slab, materials_ok(q.fc, q.fy)))
}

// d, or what 0 stands for.
pub fn depth_of(q: Query) -> u64
    requires { InRange q }
    ensures { result ≡ depth_of q }
{
    if q.d == 0 { q.t - 38 } else { q.d }
}
