// Slab steel: the least whole area of a query; and the bar schedule of a floor (02, Five).
#![tactic(auto)]

mod areas;
pub mod query;
pub mod schedule;
mod search;
mod strip;

ghost use Rattle.std.specs.Prelude.{◌≡◌};
ghost use Rattle.answers.specs.Answers.{query_answer};
ghost use Rattle.steel.specs.Steel.{steel_of};

use answers::Refusal;
use areas::limits_of;
use query::{Query, in_range};
use search::least_within;

// The least whole As, in mm².
pub fn steel(q: Query) -> Result<u32, Refusal>
    ensures { query_answer result ≡ steel_of q }
{
    if !in_range(q) {
        return Err(Refusal::QueryOutOfRange);
    }
    least_within(limits_of(q))
}
