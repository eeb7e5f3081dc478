// The percentages of Mo at the sections of a span, and their totals.
ghost use Rattle.std.specs.Prelude.{◌≡◌, ◌<◌, ◌≤◌};
ghost use Rattle.strips.specs.Asked.{Percentage};
ghost use Rattle.strips.specs.EndTable.{place_column, layout_row, end_row, end_percent, inner_percent, section_total};

use layouts::Layout;

// Where a section lies: the end-span table's columns.
#[derive(Clone, Copy)]
pub enum SpanPlace {
    OuterEnd,
    Between,
    InnerEnd,
}

const END: [[u64; 3]; 5] = [
    [0, 63, 75],
    [16, 57, 70],
    [26, 52, 70],
    [30, 50, 70],
    [65, 35, 65],
];

fn place_column(place: SpanPlace) -> usize
    ensures { (result ≡ place_column place) × (result < 3) }
{
    place as usize
}

// A match, not a cast: the rows stand in the table's order, not in the enum's.
fn layout_row(layout: Layout) -> usize
    ensures { (result ≡ layout_row layout) × (result < 5) }
{
    match layout {
        Layout::Everywhere => 1,
        Layout::Bare => 2,
        Layout::OuterOnly => 3,
    }
}

// A side whose code is neither 1 nor 2 has columns.
// The code is a number, not an enum: the clauses, of `end_percent` too, are of any.
#[tactic(auto, unfolding(crate::specs::EndTable::end_row))]
fn end_row(code: u32, layout: Layout) -> usize
    ensures { (result ≡ end_row code layout) × (result < 5) }
{
    match code {
        1 => 0,
        2 => 4,
        _ => layout_row(layout),
    }
}

// p in an end span whose outer side has this code. Code and layout come as two, here and above, as this clause takes them: it is of any number.
#[tactic(auto, unfolding(crate::specs::EndTable::end_percent))]
pub fn end_percent(code: u32, layout: Layout, place: SpanPlace) -> u64
    ensures { (result ≡ end_percent code layout place) × (result ≤ 75) }
{
    let row = end_row(code, layout);
    let column = place_column(place);
    END[row][column]
}

// p in an inner span.
pub fn inner_percent(place: SpanPlace) -> u64
    ensures { (result ≡ inner_percent place) × (result ≤ 75) }
{
    match place {
        SpanPlace::OuterEnd | SpanPlace::InnerEnd => 65,
        SpanPlace::Between => 35,
    }
}

// p·Mo, in N·cm.
pub fn section_total(percent: u64, moment: u64) -> u64
    requires { Percentage percent moment }
    ensures { (result ≡ section_total percent moment) × (result ≤ 1879200000) }
{
    percent * moment
}
