// A record of the schedule (02, Five): eight numbers of four bytes, the lowest byte first.
ghost use Rattle.std.specs.Prelude.{◌≡◌, ◌+◌, ◌*◌, ◌≤◌, length};
ghost use Rattle.numbers.specs.Records.{put, written_from, every};
ghost use Rattle.bars.specs.Entries.{number_bytes, entry_numbers, eight_of, four_bytes, entry_at};

use changes::store_at;

// The table record and the section that it is of, the strip, and what is laid there.
#[derive(Clone, Copy)]
pub struct Entry {
    pub record: u32,
    pub section: u32,
    pub strip: u32,
    pub width: u32,
    pub moment: u32,
    pub area: u32,
    pub diameter: u32,
    pub spacing: u32,
}

// How many numbers a record has, and how many bytes a number.
pub const NUMBERS: usize = 8;

pub const BYTES: usize = 4;

// Number i of the schedule.
fn write_number(schedule: &mut [u8], i: usize, n: u32)
    requires { i * number_bytes + number_bytes ≤ length schedule.old }
    ensures { schedule.new ≡ put number_bytes i (four_bytes n) schedule.old }
{
    store_at(schedule, i * BYTES, &n.to_le_bytes());
}

// In the order of the format. A From would hold the same list, and its call would not say what it lists.
fn numbers_of(e: Entry) -> [u32; NUMBERS]
    ensures { result ≡ eight_of e }
{
    [
        e.record, e.section, e.strip, e.width, e.moment, e.area, e.diameter, e.spacing,
    ]
}

// Record k of the schedule.
pub fn write_entry(schedule: &mut [u8], k: usize, e: Entry)
    requires { (k * entry_numbers + entry_numbers) * number_bytes ≤ length schedule.old }
    ensures { schedule.new ≡ written_from number_bytes every (entry_at k e) (k * entry_numbers) entry_numbers schedule.old }
{
    let numbers = numbers_of(e);
    for (n, number) in numbers.iter().enumerate() {
        write_number(schedule, k * NUMBERS + n, *number);
    }
}
