// A change to the floor (01, "Refusal numbers"): one record, judged in a copy, then stored.
// Judging and storing stand apart, because the room of what is lent, 8 and 13, is tried between them by the layer above.
#![tactic(auto)]

ghost use Rattle.std.specs.Prelude.{◌≡◌, ◌≤◌, ◌+◌, length};
ghost use Rattle.records.specs.Asked.{Small};
ghost use Rattle.answers.specs.Answers.{number_of};
ghost use Rattle.floor.specs.Refusal.{values_refusal};
ghost use Rattle.changes.specs.Asked.{Indexed, Placed};
ghost use Rattle.changes.specs.Change.{has_record, change_ok, change_place, changed, stored};
ghost use Rattle.changes.specs.Refusal.{ruled, ruling};

use answers::Refusal;
use floor::refusal;
use numbers::both;
use plan::fields::{u16_at, u32_at};
use plan::read::{Bays, Plan};
use records::kinds::{changeable, count_of, start_of, unlisted_zero};

// The kind is one that can change, and a floor of these bays has a record of that kind and index.
// A kind is a number, not an enum, here and below: a change may hold any, and the clauses are of any.
fn has_record(b: Bays, k: u32, i: u32) -> bool
    requires { Small b.x b.y }
    ensures { result ≡ has_record b k i }
{
    both(changeable(k), i < count_of(b.x, b.y, k))
}

// 9: whether the change fits a floor of these bays.
fn change_ok(b: Bays, c: &[u8]) -> bool
    requires { Small b.x b.y }
    ensures { result ≡ change_ok b c.now }
{
    let k = u16_at(c, 0);
    both(
        c.len() == 16,
        both(
            has_record(b, k, u16_at(c, 2)),
            unlisted_zero(k, u32_at(c, 8), u32_at(c, 12)),
        ),
    )
}

// The record that a change replaces.
fn change_place(b: Bays, c: &[u8]) -> u32
    requires { Indexed b c.now }
    ensures { result ≡ change_place b c.now }
{
    start_of(b.x, b.y, u16_at(c, 0)) + u16_at(c, 2)
}

// The bytes of src stored from `at` on.
// As `write_at` of crate tables stores numbers: not by the library's copy of a slice, which compares addresses as numbers. The page compiles this
// module for addresses of 32 bits.
pub fn store_at(dst: &mut [u8], at: usize, src: &[u8])
    requires { at + length src.now ≤ length dst.old }
    ensures { dst.new ≡ stored dst.old at src.now }
{
    for j in 0..src.len() {
        dst[at + j] = src[j];
    }
}

// 5 to 7 of the whole changed floor, judged in a copy: a local array with room for any file (01, "Forms to follow in each place").
fn judge_copy(plan: &Plan, place: u32, c: &[u8]) -> Result<(), Refusal>
    requires { Placed plan.now.bytes.now place c.now }
    ensures { number_of result ≡ values_refusal (changed plan.now.bytes.now c.now) }
{
    let mut copy = [0u8; 3568];
    let n = plan.bytes.len();
    store_at(&mut copy, 0, plan.bytes);
    store_at(&mut copy, (place as usize) * 16, c);
    refusal::accept_values(&Plan {
        bytes: &copy[..n],
        bays: plan.bays,
    })
}

// The place of the record that the change replaces; 1 to 7 are tried on the held floor, 9, then 5 to 7 on the changed floor.
pub fn judge(f: &[u8], c: &[u8]) -> Result<u32, Refusal>
    ensures { ruled result ≡ ruling f.now c.now }
{
    refusal::accept(f)?;
    let plan = Plan::of(f);
    if !change_ok(plan.bays, c) {
        return Err(Refusal::NoChange);
    }
    let place = change_place(plan.bays, c);
    judge_copy(&plan, place, c)?;
    Ok(place)
}

// The record in its place, and nothing else.
pub fn store(f: &mut [u8], place: u32, c: &[u8])
    requires { Placed f.old place c.now }
    ensures { f.new ≡ changed f.old c.now }
{
    store_at(f, (place as usize) * 16, c);
}
