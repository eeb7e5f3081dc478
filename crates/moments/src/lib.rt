// A floor and what is lent beside it: opening, and changes. Nothing is remembered: each call judges the floor afresh.
#![tactic(auto)]

ghost use Rattle.std.specs.Prelude.{cond, ◌&&◌, ◌≡◌, eqb};
ghost use Rattle.answers.specs.Answers.{number_of, verdict_answer};
ghost use Rattle.limits.specs.Limits.{verdict};
ghost use Rattle.tables.specs.Blank.{blanked};
ghost use Rattle.tables.specs.Places.{record_count};
ghost use Rattle.frames.specs.Table.{named_written};
ghost use Rattle.moments.specs.Lent.{lent};
ghost use Rattle.moments.specs.Tables.{room_refusal};
ghost use Rattle.moments.specs.Opening.{Opened};
ghost use Rattle.moments.specs.Changing.{remade_of, Changed};
ghost use Rattle.moments.specs.Asked.{Settling, Rewriting};

use answers::Refusal;
use floor::refusal::accept;
use frames::write_named;
use lines::survey::{Lines, Survey};
use numbers::both;
use plan::fields::u16_at;
use plan::read::bays_of;
use supports::{SUPPORT, support_count, write_beside};
use tables::named::{EVERYTHING, Named};
use tables::places::record_count;
use tables::write::{WIDTH, blank};
use verdict::{broken, verdict};

// 8, then 13: what is lent has room for what is written of the floor.
fn room_for(f: &[u8], table: &[u32], governing: &[u32]) -> Result<(), Refusal>
    ensures { number_of result ≡ room_refusal f.now (lent table.now governing.now) }
{
    let b = bays_of(f);
    let records_fit = (record_count(b) as usize) * WIDTH <= table.len();
    if !records_fit {
        return Err(Refusal::TableRoom);
    }
    let supports_fit = (support_count(b) as usize) * SUPPORT <= governing.len();
    if !supports_fit {
        return Err(Refusal::GoverningRoom);
    }
    Ok(())
}

// The records of a floor that a change of this record names, or zeros for all of them where its verdict is not clear.
fn rewrite(lines: &Lines, table: &mut [u32], stands: bool, written: Named)
    requires { Rewriting lines.now.survey.floor.bytes.now table.old stands written.kind written.index }
    ensures { table.new ≡ cond stands (named_written lines.now.survey.floor.bytes.now written.kind written.index table.old) (blanked (record_count lines.now.survey.floor.bytes.now) table.old) }
{
    let floor = lines.survey.floor;
    if stands {
        write_named(floor, table, &lines.alphas, written);
    } else {
        blank(table, record_count(floor.slab.bays));
    }
}

// What is written after a change of this record: the whole, unless both verdicts are clear.
fn to_write(before: bool, stands: bool, named: Named) -> Named
    ensures { (result.kind ≡ cond (before && stands) named.kind 3) × (result.index ≡ cond (before && stands) named.index 0) }
{
    if both(before, stands) {
        named
    } else {
        EVERYTHING
    }
}

// The verdict of floor f, and everything lent, from spans and α that are worked out once: the whole, or where the verdict was clear before and is now, what
// a change of this record names, with the governing negatives next to it from the table as it then stands.
fn settle(f: &[u8], table: &mut [u32], governing: &mut [u32], before: bool, named: Named) -> u32
    requires { Settling f.now table.old governing.old named.kind named.index }
    ensures { (result ≡ verdict f.now) × (lent table.new governing.new ≡ remade_of before f.now named.kind named.index (lent table.old governing.old)) }
{
    let lines = Lines::of(Survey::of(f));
    let v = broken(&lines);
    let part = to_write(before, v == 0, named);
    rewrite(&lines, table, v == 0, part);
    let bays = lines.survey.floor.slab.bays;
    write_beside(table, governing, bays, part);
    v
}

// Opens a floor: its refusal, or its verdict with its table and its governing negatives.
pub fn open(f: &[u8], table: &mut [u32], governing: &mut [u32]) -> Result<u32, Refusal>
    ensures { Opened f.now (lent table.old governing.old) (verdict_answer result) (lent table.new governing.new) }
{
    accept(f)?;
    room_for(f, table, governing)?;
    Ok(settle(f, table, governing, false, EVERYTHING))
}

// A change: judged whole before one byte is stored, then floor and slices together.
pub fn change(
    f: &mut [u8],
    table: &mut [u32],
    governing: &mut [u32],
    c: &[u8],
) -> Result<u32, Refusal>
    ensures { Changed f.old (lent table.old governing.old) c.now (verdict_answer result) f.new (lent table.new governing.new) }
{
    let place = changes::judge(f, c)?;
    room_for(f, table, governing)?;
    let before = verdict(f);
    changes::store(f, place, c);
    let named = Named {
        kind: u16_at(c, 0),
        index: u16_at(c, 2),
    };
    Ok(settle(f, table, governing, before == 0, named))
}
