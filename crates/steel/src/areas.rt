// The limits that a query sets for its area.
ghost use Rattle.std.specs.Prelude.{◌≡◌};
ghost use Rattle.steel.specs.Area.{K};
ghost use Rattle.steel.specs.Query.{InRange};
ghost use Rattle.steel.specs.Steel.{minimum_area, strain_area, limits_of};

use crate::query::{Query, depth_of};
use crate::search::Limits;
use numbers::rounded_up;

fn k_of(fc: u64) -> u64
    ensures { result ≡ K fc }
{
    if fc <= 28 {
        return 1190;
    }
    if 56 <= fc {
        return 910;
    }
    1470 - 10 * fc
}

// The least As that reaches the minimum.
fn minimum_area(q: Query) -> u64
    requires { InRange q }
    ensures { result ≡ minimum_area q }
{
    let b = q.b;
    let t = q.t;
    let fy = q.fy;
    if fy == 280 {
        return rounded_up(2 * b * t, 1000);
    }
    rounded_up(756 * b * t, 1000 * fy)
}

// The largest As within the strain limit.
fn strain_area(q: Query) -> u64
    requires { InRange q }
    ensures { result ≡ strain_area q }
{
    let b = q.b;
    let d = depth_of(q);
    let fc = q.fc;
    let fy = q.fy;
    51 * k_of(fc) * fc * b * d / (224000 * fy)
}

pub fn limits_of(q: Query) -> Limits
    requires { InRange q }
    ensures { result ≡ limits_of q }
{
    let m = q.m;
    let b = q.b;
    let d = depth_of(q);
    let fc = q.fc;
    Limits {
        fy: q.fy,
        block: 17 * fc * b * d,
        load: 1700 * fc * b * m,
        least: minimum_area(q),
        most: strain_area(q),
    }
}
