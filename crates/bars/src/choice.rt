// The bars of a strip (02, Five): the smallest that allow a spacing, at the largest spacing that they allow.
ghost use Rattle.std.specs.Prelude.{◌≡◌, ◌*◌, ◌/◌, ◌≤◌};
ghost use Rattle.bars.specs.Choice.{widest, bars_for, if_any};
ghost use Rattle.bars.specs.Asked.{Reinforced, Barred};

// A bar's diameter, and the distance from one to the next.
#[derive(Clone, Copy)]
pub struct Bars {
    pub diameter: u32,
    pub spacing: u32,
}

// Each bar's diameter and area, the smallest first.
const BARS: [(u32, u64); 3] = [(10, 79), (12, 113), (16, 201)];

// 02: "at least 80"
const CLOSEST: u64 = 80;

// The largest multiple of 10 that is no more.
fn whole_tens(n: u64) -> u64
    requires { n ≤ 1000 }
    ensures { result ≡ n / 10 * 10 }
{
    n / 10 * 10
}

// The widest spacing that bars of this area allow, if it is not below 80.
fn widest(bar: u64, width: u64, area: u64, t: u64) -> u64
    requires { Barred bar width area t }
    ensures { (result ≡ widest bar width area t) × (result ≤ 1000) }
{
    whole_tens((bar * width / area).min(2 * t))
}

pub fn bars_for(width: u64, area: u64, t: u64) -> Option<Bars>
    requires { Reinforced width area t }
    ensures { result ≡ if_any (bars_for width area t) }
{
    for (diameter, bar) in BARS {
        let spacing = widest(bar, width, area, t);
        let fits = CLOSEST <= spacing;
        if fits {
            return Some(Bars {
                diameter,
                spacing: spacing as u32,
            });
        }
    }
    None
}
