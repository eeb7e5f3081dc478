// The bar schedule of a floor (02, Five). All of it is judged before one byte is written, and nothing but the lent buffer could hold it meanwhile: so each
// record is worked out twice.
ghost use Rattle.std.specs.Prelude.{◌≡◌, ◌<◌, ◌*◌};
ghost use Rattle.numbers.specs.Records.{written_from, every};
ghost use Rattle.answers.specs.Answers.{query_answer};
ghost use Rattle.limits.specs.Limits.{verdict};
ghost use Rattle.tables.specs.Places.{record_count};
ghost use Rattle.tables.specs.Asked.{Room};
ghost use Rattle.frames.specs.Spans.{span_at};
ghost use Rattle.bars.specs.Entries.{number_bytes};
ghost use Rattle.floor.specs.Asked.{Accepted};
ghost use Rattle.steel.specs.Asked.{Framed, Laying, LayingAll, Roomy, HasMoments};
ghost use Rattle.steel.specs.Strips.{span_numbers, materials_of, span_barred, strip_bytes};
ghost use Rattle.steel.specs.Schedule.{all_barred, scheduled, Scheduled};

use crate::strip::{Materials, barred_entry, moment_number};
use answers::Refusal;
use bars::entry::write_entry;
use floor::refusal::accept;
use frames::span::{Span, span_at};
use frames::write_named;
use lines::survey::{Floor, Lines, Survey};
use tables::named::EVERYTHING;
use tables::places::record_count;
use verdict::broken;

// How many records the schedule has for a record of the table, and how many bytes they take.
const STRIPS: u32 = 6;

const SPAN_BYTES: usize = 192;

// Room for the moments of any floor: 312 records of sixteen numbers.
const TABLE: usize = 4992;

// Has every strip of the span its bars?
// Span, materials and number come one by one, here and below, as `entry_of` and `strip_bytes` of specs/ take them.
fn span_barred(s: Span, m: Materials, k: u32) -> bool
    requires { Framed s }
    ensures { result ≡ span_barred s m k }
{
    // Copied once for its strips.
    let numbers = s.numbers;
    for q in 0..STRIPS {
        if barred_entry(s, m, k, q, numbers[moment_number(q)]).is_none() {
            return false;
        }
    }
    true
}

// The records of span k, whose strips all have bars.
fn write_span(schedule: &mut [u8], s: Span, m: Materials, k: u32)
    requires { Laying schedule.old s m k }
    ensures { schedule.new ≡ written_from number_bytes every (strip_bytes s m k) (k * span_numbers) span_numbers schedule.old }
{
    let numbers = s.numbers;
    for q in 0..STRIPS {
        if let Some(e) = barred_entry(s, m, k, q, numbers[moment_number(q)]) {
            write_entry(schedule, (k * STRIPS + q) as usize, e);
        }
    }
}

fn materials_of(floor: Floor) -> Materials
    ensures { result ≡ materials_of floor.entry.bytes.now }
{
    Materials {
        t: floor.slab.t as u64,
        fc: plan::strength(floor.bytes) as u64,
        fy: floor.slab.fy as u64,
    }
}

// A clear floor, a table that has its moments, and what its spans share.
#[derive(Clone, Copy)]
struct Moments<'a> {
    floor: Floor<'a>,
    table: &'a [u32],
    materials: Materials,
    count: u32,
    ghost clear: { verdict floor.bytes.now ≡ 0 },
    ghost long: { Room (record_count floor.bytes.now) table.now },
    ghost holds: { HasMoments floor.bytes.now table.now },
    ghost shared: { materials ≡ materials_of floor.bytes.now },
    ghost counted: { count ≡ record_count floor.bytes.now },
}

impl<'a> Moments<'a> {
    fn span(&self, k: u32) -> Span
        requires { k < record_count self.now.floor.bytes.now }
        ensures { result ≡ span_at self.now.floor.bytes.now k }
    {
        span_at(self.floor, self.table, k)
    }

    // Has every strip of every span its bars?
    fn barred(&self) -> bool
        ensures { result ≡ all_barred self.now.floor.bytes.now }
    {
        for k in 0..self.count {
            if !span_barred(self.span(k), self.materials, k) {
                return false;
            }
        }
        true
    }

    fn write(&self, schedule: &mut [u8])
        requires { LayingAll self.now.floor.bytes.now schedule.old }
        ensures { schedule.new ≡ scheduled self.now.floor.bytes.now schedule.old }
    {
        for k in 0..self.count {
            write_span(schedule, self.span(k), self.materials, k);
        }
    }

    // Bars for all, and only then is anything written.
    fn lay(&self, schedule: &mut [u8]) -> Result<u32, Refusal>
        requires { Roomy self.now.floor.bytes.now schedule.old }
        ensures { Scheduled self.now.floor.bytes.now schedule.old (query_answer result) schedule.new }
    {
        let barred = self.barred();
        if !barred {
            return Err(Refusal::NoBars);
        }
        self.write(schedule);
        Ok(self.count * STRIPS)
    }
}

// Of a clear floor with room for its schedule. Its moments are worked out as opening works them out, in a table of its own.
// `count` is how many records the floor's table has, for which there is room, and no length of the schedule's.
fn fill(lines: &Lines, schedule: &mut [u8], count: u32) -> Result<u32, Refusal>
    requires clear { verdict lines.now.survey.floor.bytes.now ≡ 0 }
    requires counted { count ≡ record_count lines.now.survey.floor.bytes.now }
    requires room { Roomy lines.now.survey.floor.bytes.now schedule.old }
    ensures { Scheduled lines.now.survey.floor.bytes.now schedule.old (query_answer result) schedule.new }
{
    let floor = lines.survey.floor;
    let mut table = [0u32; TABLE];
    write_named(floor, &mut table, &lines.alphas, EVERYTHING);
    let moments = Moments {
        floor,
        table: &table,
        materials: materials_of(floor),
        count,
    };
    moments.lay(schedule)
}

// Of an accepted floor.
fn judge(f: &[u8], schedule: &mut [u8]) -> Result<u32, Refusal>
    requires { Accepted f.now }
    ensures { Scheduled f.now schedule.old (query_answer result) schedule.new }
{
    let lines = Lines::of(Survey::of(f));
    let floor = lines.survey.floor;
    let count = record_count(floor.slab.bays);
    let room = (count as usize) * SPAN_BYTES <= schedule.len();
    let sum = broken(&lines);
    let clear = sum == 0;
    // "1 to 7, 16, 15, 17"
    if !clear {
        return Err(Refusal::NotClear);
    }
    if !room {
        return Err(Refusal::ScheduleRoom);
    }
    fill(&lines, schedule, count)
}

// The bar schedule: how many records it has, with 32 bytes for each in the buffer.
pub fn schedule(f: &[u8], schedule: &mut [u8]) -> Result<u32, Refusal>
    ensures { Scheduled f.now schedule.old (query_answer result) schedule.new }
{
    accept(f)?;
    judge(f, schedule)
}
