// The floor's numbers by name, the same for both directions. What is not there reads 0, so no reader asks that the floor was accepted.
#![tactic(auto)]

pub mod fields;
pub mod read;
pub mod ways;

ghost use Rattle.std.specs.Prelude.{◌≡◌, ◌≤◌, ◌<◌};
ghost use Rattle.plan.specs.Asked.{Single};
ghost use Rattle.plan.specs.Plan.{up_to_twelve, bays, value, thickness, strength, grade, dead, live, column, side};

use fields::{A, B, C, u32_at};
use records::kinds::{COLUMNS, LOADS, MATERIALS, SIZES};
use ways::{End, Way};

// 0 for a number out of range, not an Option: `bays` of specs/ reads any bytes, a damaged file as a floor of no bays.
fn up_to_twelve(n: u32) -> u32
    ensures { (result ≡ up_to_twelve n) × (result ≤ 12) }
{
    if n <= 12 { n } else { 0 }
}

#[tactic(auto, unfolding(crate::specs::Plan::bays))]
pub fn bays(f: &[u8], d: Way) -> u32
    ensures { (result ≡ bays f.now d) × (result ≤ 12) }
{
    up_to_twelve(ways::pick(d, u32_at(f, 4), u32_at(f, 8)))
}

// The one record of kind k, which stands at the same place in every floor.
// Kind and part are numbers, not enums: its place is worked out from both, as `value` of specs/ does.
#[tactic(auto, using(crate::proofs::Reading::one_record))]
fn single(f: &[u8], k: u32, part: u32) -> u32
    requires { Single k part }
    ensures { result ≡ value f.now k 0 part }
{
    u32_at(f, (k - 1) * 16 + 4 * part)
}

pub fn thickness(f: &[u8]) -> u32
    ensures { result ≡ thickness f.now }
{
    single(f, SIZES, C)
}

pub fn strength(f: &[u8]) -> u32
    ensures { result ≡ strength f.now }
{
    single(f, MATERIALS, A)
}

pub fn grade(f: &[u8]) -> u32
    ensures { result ≡ grade f.now }
{
    single(f, MATERIALS, B)
}

pub fn dead(f: &[u8]) -> u32
    ensures { result ≡ dead f.now }
{
    single(f, LOADS, A)
}

pub fn live(f: &[u8]) -> u32
    ensures { result ≡ live f.now }
{
    single(f, LOADS, B)
}

pub fn column(f: &[u8], d: Way) -> u32
    ensures { result ≡ column f.now d }
{
    single(f, COLUMNS, ways::part_of(d))
}

// The code of a side. A number, not an enum: 3 is none of 01's, and a file that is not accepted may hold it.
pub fn side(f: &[u8], d: Way, e: End) -> u32
    ensures { (result ≡ side f.now d e) × (result < 4) }
{
    single(f, COLUMNS, C) / ways::side_unit(d, e) % 4
}
