// Which record of the table is which span: x frames first, then y frames.
ghost use Rattle.std.specs.Prelude.{◌≡◌, ◌≤◌};
ghost use Rattle.tables.specs.Places.{records_of, first_in, line_first_in, in_way, found, place_among};
ghost use Rattle.tables.specs.Asked.{Bayed, OnLine, Numbered};

use plan::read::{Bays, along};
use plan::ways::{Way, pick};

// Where a span is found: on line `line` along `way`.
#[derive(Clone, Copy)]
pub struct Found {
    pub way: Way,
    pub line: u32,
    pub span: u32,
}

// That the bays are in range is asked, here and below, and not part of `Bays`: the places of a limit are counted by it too, up to 13.
pub fn record_count(b: Bays) -> u32
    requires { Bayed b }
    ensures { (result ≡ records_of b) × (result ≤ 312) }
{
    let nx = b.x;
    let ny = b.y;
    (ny + 1) * nx + (nx + 1) * ny
}

// The first record of the frames along d.
fn first_of(b: Bays, d: Way) -> u32
    requires { Bayed b }
    ensures { (result ≡ first_in b d) × (result ≤ 156) }
{
    let nx = b.x;
    let ny = b.y;
    pick(d, 0, (ny + 1) * nx)
}

// And of line l along d.
pub fn line_first(b: Bays, d: Way, l: u32) -> u32
    requires { OnLine b l }
    ensures { (result ≡ line_first_in b d l) × (result ≤ 300) }
{
    first_of(b, d) + l * along(b, d)
}

// The place of the k-th span of the lines along d, which have n each.
fn in_way(d: Way, n: u32, k: u32) -> Found
    requires { 1 ≤ n }
    ensures { result ≡ found (in_way d n k) }
{
    Found {
        way: d,
        line: k / n,
        span: k % n,
    }
}

// The span of record k.
pub fn place_of(b: Bays, k: u32) -> Found
    requires { Numbered b k }
    ensures { result ≡ found (place_among b k) }
{
    let start = first_of(b, Way::Y);
    if k < start {
        in_way(Way::X, b.x, k)
    } else {
        in_way(Way::Y, b.y, k - start)
    }
}
