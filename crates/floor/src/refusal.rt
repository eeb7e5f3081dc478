// Refusals 1 to 7 of a floor file, in the order tried.
// A kind k is a number, not an enum: a file may hold any, and `head_is`, `record_ok` and `kind_ok` of specs/ are of any.
ghost use Rattle.std.specs.Prelude.{◌≡◌, ◌≤◌};
ghost use Rattle.plan.specs.Asked.{InFile};
ghost use Rattle.floor.specs.Asked.{Run, Filed};
ghost use Rattle.plan.specs.Plan.{start, many};
ghost use Rattle.floor.specs.declared.refusal.Check.TheVariants.{Listed, Ranged};
ghost use Rattle.floor.specs.Refusal.{length_ok, head_is, first_ok, count_ok, record_ok, kind_ok, every_record, values_refusal, refusal};
ghost use Rattle.answers.specs.Answers.{number_of};

use answers::Refusal;
use layouts::{Rule, beams_ok, kept};
use numbers::both;
use plan::fields::{A, B, C, index_at, kind_at, part_at};
use plan::read::Plan;
use records::kinds::{OFFSETS, SIZES, count_of, start_of};

// What is checked in every record before the next check is tried. An enum, not a closure: the refusals and their theorems name each check
// (`every_record f Listed`).
#[derive(Clone, Copy)]
pub enum Check {
    Listed,
    Ranged,
}

fn length_ok(f: &[u8]) -> bool
    ensures { result ≡ length_ok f.now }
{
    f.len() % 16 == 0 && 224 <= f.len()
}

fn head_is(f: &[u8], q: u32, k: u32, i: u32) -> bool
    requires { InFile f.now q }
    ensures { result ≡ head_is f.now q k i }
{
    both(kind_at(f, q) == k, index_at(f, q) == i)
}

fn first_ok(f: &[u8]) -> bool
    requires { InFile f.now 0 }
    ensures { result ≡ first_ok f.now }
{
    both(
        head_is(f, 0, SIZES, 0),
        records::ranges::sizes_ok(part_at(f, 0, A), part_at(f, 0, B), part_at(f, 0, C)),
    )
}

fn count_ok(plan: &Plan) -> bool
    ensures { result ≡ count_ok plan.now.bytes.now }
{
    let n = records::kinds::total(plan.bays.x, plan.bays.y);
    plan.bytes.len() == (n as usize) * 16
}

fn listed(f: &[u8], k: u32, i: u32, q: u32) -> bool
    requires { InFile f.now q }
    ensures { result ≡ record_ok f.now Listed k i q }
{
    both(
        head_is(f, q, k, i),
        records::kinds::unlisted_zero(k, part_at(f, q, B), part_at(f, q, C)),
    )
}

fn ranged(f: &[u8], k: u32, i: u32, q: u32) -> bool
    requires { InFile f.now q }
    ensures { result ≡ record_ok f.now Ranged k i q }
{
    records::ranges::values_ok(k, part_at(f, q, A), part_at(f, q, B), part_at(f, q, C))
}

fn record_ok(f: &[u8], check: Check, k: u32, i: u32, q: u32) -> bool
    requires { InFile f.now q }
    ensures { result ≡ record_ok f.now check k i q }
{
    match check {
        Check::Listed => listed(f, k, i, q),
        Check::Ranged => ranged(f, k, i, q),
    }
}

// The n records of a kind, from record `from` on. Numbers, not a slice of the file: `kind_ok` of specs/ counts records from the file's start.
fn kind_ok(f: &[u8], check: Check, k: u32, from: u32, n: u32) -> bool
    requires { Run f.now from n }
    ensures { result ≡ kind_ok f.now check k from n }
{
    (0..n).all(|i| record_ok(f, check, k, i, from + i))
}

// All records of a kind.
fn all_of_kind(plan: &Plan, check: Check, k: u32) -> bool
    requires filed { Filed plan.now.bytes.now }
    requires kind { k ≤ 9 }
    ensures { result ≡ kind_ok plan.now.bytes.now check k (start plan.now.bytes.now k) (many plan.now.bytes.now k) }
{
    let b = plan.bays;
    kind_ok(
        plan.bytes,
        check,
        k,
        start_of(b.x, b.y, k),
        count_of(b.x, b.y, k),
    )
}

fn every_record(plan: &Plan, check: Check) -> bool
    requires { Filed plan.now.bytes.now }
    ensures { result ≡ every_record plan.now.bytes.now check }
{
    (0..=OFFSETS).all(|k| all_of_kind(plan, check, k))
}

// 5 to 7, which a change tries again on the changed floor.
// `Filed` is asked of a plan and no type of its own: it is shown in two places, after check 3 and of a changed copy.
pub fn accept_values(plan: &Plan) -> Result<(), Refusal>
    requires { Filed plan.now.bytes.now }
    ensures { number_of result ≡ values_refusal plan.now.bytes.now }
{
    if !every_record(plan, Check::Ranged) {
        return Err(Refusal::OutOfRange);
    }
    if !kept(plan, Rule::Columns) {
        return Err(Refusal::ColumnTooWide);
    }
    if !beams_ok(plan) {
        return Err(Refusal::BeamLayout);
    }
    Ok(())
}

// 1 to 7.
pub fn accept(f: &[u8]) -> Result<(), Refusal>
    ensures { number_of result ≡ refusal f.now }
{
    if !length_ok(f) {
        return Err(Refusal::Length);
    }
    if !first_ok(f) {
        return Err(Refusal::FirstRecord);
    }
    let plan = Plan::of(f);
    if !count_ok(&plan) {
        return Err(Refusal::RecordCount);
    }
    if !every_record(&plan, Check::Listed) {
        return Err(Refusal::NotAsListed);
    }
    accept_values(&plan)
}
