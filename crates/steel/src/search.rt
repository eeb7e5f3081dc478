// The least area over any limits: what an edition asks enters by its numbers alone.
ghost use Rattle.std.specs.Prelude.{◌≡◌};
ghost use Rattle.steel.specs.Asked.{Searchable};
ghost use Rattle.answers.specs.Answers.{query_answer};
ghost use Rattle.steel.specs.Search.{least_within};

use answers::Refusal;
use numbers::rounded_up;

// An area As carries the moment where 9·As·fy·(block − 10·As·fy) ≥ load; it is to lie from `least` to `most`.
#[derive(Clone, Copy)]
pub struct Limits {
    pub fy: u64,
    pub block: u64,
    pub load: u64,
    pub least: u64,
    pub most: u64,
}

// The moment carried, drawn over the area, bends down: its tangent at an area that is too small meets the load at an area that is not too large.
// That area, rounded up, is tried next.
pub fn least_within(l: Limits) -> Result<u32, Refusal>
    requires { Searchable l }
    ensures { query_answer result ≡ least_within l }
{
    let fy = l.fy;
    let block = l.block;
    let load = l.load;
    let most = l.most;
    let mut area = l.least;
    // Not a `for`: how far a turn moves on is worked out in it.
    while area <= most {
        let tension = area * fy;
        let carried = 9 * tension * (block - 10 * tension);
        if load <= carried {
            return Ok(area as u32);
        }
        area += rounded_up(load - carried, 9 * fy * (block - 20 * tension));
    }
    Err(Refusal::NoArea)
}
