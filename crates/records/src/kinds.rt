// Counts, places and listed fields of the records, by kind: what refusals 3, 4 and 9 ask.
ghost use Rattle.std.specs.Prelude.{◌≡◌, ◌≤◌};
ghost use Rattle.records.specs.Kinds.{count_of, start_of, total, unlisted_zero, changeable};
ghost use Rattle.records.specs.Asked.{Small, Kinded};

// The kinds that have one record, and the offsets; the kinds of a direction are in crate plan. A kind is a number, not an enum: a file may hold any,
// and the clauses take numbers. So do those that take nx and ny, one by one.
pub const SIZES: u32 = 1;

pub const MATERIALS: u32 = 2;

pub const LOADS: u32 = 3;

pub const COLUMNS: u32 = 4;

pub const OFFSETS: u32 = 9;

#[tactic(auto, unfolding(crate::specs::Kinds::count_of))]
pub fn count_of(nx: u32, ny: u32, k: u32) -> u32
    requires { Small nx ny }
    ensures { (result ≡ count_of nx ny k) × (result ≤ 169) }
{
    match k {
        1..=4 => 1,
        5 => nx,
        6 => ny,
        7 => ny + 1,
        8 => nx + 1,
        9 => (nx + 1) * (ny + 1),
        _ => 0,
    }
}

#[tactic(auto, unfolding(crate::specs::Kinds::start_of, crate::specs::Kinds::count_of))]
pub fn start_of(nx: u32, ny: u32, k: u32) -> u32
    requires { Kinded nx ny k }
    ensures { (result ≡ start_of nx ny k) × (result ≤ 54) }
{
    match k {
        0 | 1 => 0,
        2 => 1,
        3 => 2,
        4 => 3,
        5 => 4,
        6 => 4 + nx,
        7 => 4 + nx + ny,
        8 => 5 + nx + 2 * ny,
        _ => 6 + 2 * nx + 2 * ny,
    }
}

#[tactic(auto, using(crate::proofs::Places::total_is, crate::proofs::Places::corners_most))]
pub fn total(nx: u32, ny: u32) -> u32
    requires { Small nx ny }
    ensures { (result ≡ total nx ny) × (result ≤ 223) }
{
    6 + 2 * nx + 2 * ny + (nx + 1) * (ny + 1)
}

#[tactic(auto, unfolding(crate::specs::Kinds::unlisted_zero))]
pub fn unlisted_zero(k: u32, b: u32, c: u32) -> bool
    ensures { result ≡ unlisted_zero k b c }
{
    match k {
        1 | 4 => true,
        5 | 6 => b == 0 && c == 0,
        2 | 3 | 7..=9 => c == 0,
        _ => false,
    }
}

#[tactic(auto, unfolding(crate::specs::Kinds::changeable))]
pub fn changeable(k: u32) -> bool
    ensures { result ≡ changeable k }
{
    matches!(k, 3 | 5..=9)
}
