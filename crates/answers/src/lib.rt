// What a call answers: a refusal, or what was asked (01, "Refusal numbers").
#![tactic(auto)]

ghost use Rattle.std.specs.Prelude.{◌≡◌};
ghost use Rattle.answers.specs.Answers.{answer, number, verdict_answer, query_answer};

// Why a call is refused, in the order of the numbers of 01 and 02.
#[derive(Clone, Copy)]
pub enum Refusal {
    Length = 1,
    FirstRecord = 2,
    RecordCount = 3,
    NotAsListed = 4,
    OutOfRange = 5,
    ColumnTooWide = 6,
    BeamLayout = 7,
    TableRoom = 8,
    NoChange = 9,
    NoPanel = 10,
    QueryOutOfRange = 11,
    NoArea = 12,
    GoverningRoom = 13,
    ScheduleRoom = 15,
    NotClear = 16,
    NoBars = 17,
    PlacesRoom = 25,
}

impl Refusal {
    pub fn number(self) -> u32
        ensures { result ≡ number self }
    {
        self as u32
    }
}

// What C sees of an outcome: a refusal's number, or 0 and what was asked; laid out as in C.
#[repr(C)]
#[derive(Clone, Copy)]
pub struct Answer {
    pub refusal: u32,
    pub value: u32,
}

pub fn success(value: u32) -> Answer
    ensures { result ≡ answer 0 value }
{
    Answer { refusal: 0, value }
}

// A refused opening or change, whose verdict is one that no floor earns. It takes any number, as the next one does: docs/DECISIONS.md names both.
pub fn refused(number: u32) -> Answer
    ensures { result ≡ answer number 255 }
{
    Answer {
        refusal: number,
        value: 255,
    }
}

// A refused query, which answers 0 mm, 0 mm² or no.
pub fn refused_query(number: u32) -> Answer
    ensures { result ≡ answer number 0 }
{
    Answer {
        refusal: number,
        value: 0,
    }
}

impl Answer {
    // Of an opening or change.
    pub fn of_verdict(outcome: Result<u32, Refusal>) -> Answer
        ensures { result ≡ verdict_answer outcome }
    {
        match outcome {
            Ok(value) => success(value),
            Err(refusal) => refused(refusal.number()),
        }
    }

    // Of a query.
    pub fn of_query(outcome: Result<u32, Refusal>) -> Answer
        ensures { result ≡ query_answer outcome }
    {
        match outcome {
            Ok(value) => success(value),
            Err(refusal) => refused_query(refusal.number()),
        }
    }
}
