// The C boundary of the product's face: what include/gandhrumil.h declares, by the same symbols. Each export promises what the function of crate
// gandhrumil that it calls promises, and does nothing else.
#![tactic(auto)]

ghost use Rattle.std.specs.Prelude.{◌≡◌};
ghost use Rattle.verdict.specs.Answers.{panel_of};
ghost use Rattle.clear.specs.Answers.{clear_of};
ghost use Rattle.broken.specs.Answers.{Placed};
ghost use Rattle.moments.specs.Lent.{lent};
ghost use Rattle.moments.specs.Opening.{Opened};
ghost use Rattle.moments.specs.Changing.{Changed};
ghost use Rattle.steel.specs.Query.{query_of};
ghost use Rattle.steel.specs.Steel.{steel_of};
ghost use Rattle.steel.specs.Schedule.{Scheduled};

use answers::Answer;

// Opens a floor: its refusal, or its verdict with its table and its governing negatives.
#[unsafe(no_mangle)]
pub extern "C" fn gandhrumil_open(floor: &[u8], table: &mut [u32], governing: &mut [u32]) -> Answer
    ensures { Opened floor.now (lent table.old governing.old) result (lent table.new governing.new) }
{
    gandhrumil::gandhrumil_open(floor, table, governing)
}

// A change to a floor and what is lent beside it: refused, and nothing is touched, or taken, with the verdict of the floor it made.
#[unsafe(no_mangle)]
pub extern "C" fn gandhrumil_change(
    floor: &mut [u8],
    table: &mut [u32],
    governing: &mut [u32],
    change: &[u8],
) -> Answer
    ensures { Changed floor.old (lent table.old governing.old) change.now result floor.new (lent table.new governing.new) }
{
    gandhrumil::gandhrumil_change(floor, table, governing, change)
}

// The least thickness in mm of the panel of x bay x and y bay y.
#[unsafe(no_mangle)]
pub extern "C" fn gandhrumil_panel(floor: &[u8], x: u64, y: u64) -> Answer
    ensures { result ≡ panel_of floor.now x y }
{
    gandhrumil::gandhrumil_panel(floor, x, y)
}

// Whether the floor is clear: 1 yes, 0 no; a refused floor answers no with its number.
#[unsafe(no_mangle)]
pub extern "C" fn gandhrumil_clear(floor: &[u8]) -> Answer
    ensures { result ≡ clear_of floor.now }
{
    gandhrumil::gandhrumil_clear(floor)
}

// Every place where a limit is broken: how many there are, with four numbers for each in the slice.
#[unsafe(no_mangle)]
pub extern "C" fn gandhrumil_places(floor: &[u8], places: &mut [u32]) -> Answer
    ensures { Placed floor.now places.old result places.new }
{
    gandhrumil::gandhrumil_places(floor, places)
}

// The least whole area of steel in mm² for the moment m, in N·cm, on a width b of a slab of thickness t.
#[unsafe(no_mangle)]
pub extern "C" fn gandhrumil_steel(m: u64, b: u64, t: u64, d: u64, fc: u64, fy: u64) -> Answer
    ensures { result ≡ steel_of (query_of m b t d fc fy) }
{
    gandhrumil::gandhrumil_steel(m, b, t, d, fc, fy)
}

// The bar schedule: how many records it has, with 32 bytes for each in the buffer.
#[unsafe(no_mangle)]
pub extern "C" fn gandhrumil_schedule(floor: &[u8], schedule: &mut [u8]) -> Answer
    ensures { Scheduled floor.now schedule.old result schedule.new }
{
    gandhrumil::gandhrumil_schedule(floor, schedule)
}
