// The product's face: what C and Rust call (include/gandhrumil.h). Every function takes any bytes, any slices and any numbers, and adds nothing of
// its own to what the layer below promises. C calls them through the crate gandhrumil_c, since a library exports no symbols.
// Table, governing slice and the numbers of a query come one by one, here, in gandhrumil_c, in moments and in print, as C hands them.
#![tactic(auto)]

ghost use Rattle.std.specs.Prelude.{◌≡◌};
ghost use Rattle.verdict.specs.Answers.{panel_of};
ghost use Rattle.clear.specs.Answers.{clear_of};
ghost use Rattle.broken.specs.Answers.{Placed};
ghost use Rattle.moments.specs.Lent.{lent};
ghost use Rattle.moments.specs.Opening.{Opened};
ghost use Rattle.moments.specs.Changing.{Changed};
ghost use Rattle.steel.specs.Query.{query_of};
ghost use Rattle.steel.specs.Steel.{steel_of};
ghost use Rattle.steel.specs.Schedule.{Scheduled};

use answers::Answer;
use steel::query::Query;

// Opens a floor: its refusal, or its verdict with its table and its governing negatives.
pub fn gandhrumil_open(floor: &[u8], table: &mut [u32], governing: &mut [u32]) -> Answer
    ensures { Opened floor.now (lent table.old governing.old) result (lent table.new governing.new) }
{
    Answer::of_verdict(moments::open(floor, table, governing))
}

// A change to a floor and what is lent beside it: refused, and nothing is touched, or taken, with the verdict of the floor it made.
pub fn gandhrumil_change(
    floor: &mut [u8],
    table: &mut [u32],
    governing: &mut [u32],
    change: &[u8],
) -> Answer
    ensures { Changed floor.old (lent table.old governing.old) change.now result floor.new (lent table.new governing.new) }
{
    Answer::of_verdict(moments::change(floor, table, governing, change))
}

// The least thickness in mm of the panel of x bay x and y bay y.
pub fn gandhrumil_panel(floor: &[u8], x: u64, y: u64) -> Answer
    ensures { result ≡ panel_of floor.now x y }
{
    Answer::of_query(verdict::panel(floor, x, y))
}

// Whether the floor is clear: 1 yes, 0 no; a refused floor answers no with its number.
pub fn gandhrumil_clear(floor: &[u8]) -> Answer
    ensures { result ≡ clear_of floor.now }
{
    Answer::of_query(clear::clear(floor))
}

// Every place where a limit is broken: how many there are, with four numbers for each in the slice.
pub fn gandhrumil_places(floor: &[u8], places: &mut [u32]) -> Answer
    ensures { Placed floor.now places.old result places.new }
{
    Answer::of_query(broken::places(floor, places))
}

// The least whole area of steel in mm² for the moment m, in N·cm, on a width b of a slab of thickness t.
pub fn gandhrumil_steel(m: u64, b: u64, t: u64, d: u64, fc: u64, fy: u64) -> Answer
    ensures { result ≡ steel_of (query_of m b t d fc fy) }
{
    Answer::of_query(steel::steel(Query { m, b, t, d, fc, fy }))
}

// The bar schedule: how many records it has, with 32 bytes for each in the buffer.
pub fn gandhrumil_schedule(floor: &[u8], schedule: &mut [u8]) -> Answer
    ensures { Scheduled floor.now schedule.old result schedule.new }
{
    Answer::of_query(steel::schedule::schedule(floor, schedule))
}
