// The value ranges of one record, by kind: what refusal 5 asks.
ghost use Rattle.std.specs.Prelude.{◌≡◌, ◌%◌, leb};
ghost use Rattle.records.specs.Ranges.{sizes_ok, materials_ok, loads_ok, column_ok, sides_ok, columns_ok, span_ok, beam_ok, offset_ok, values_ok};

#[tactic(auto, unfolding(crate::specs::Ranges::sizes_ok))]
pub fn sizes_ok(nx: u32, ny: u32, t: u32) -> bool
    ensures { result ≡ sizes_ok nx ny t }
{
    matches!(nx, 1..=12) && matches!(ny, 1..=12) && matches!(t, 90..=500)
}

// Of the floor file and of a steel query.
#[tactic(auto, unfolding(crate::specs::Ranges::materials_ok))]
pub fn materials_ok(fc: u64, fy: u64) -> bool
    ensures { result ≡ materials_ok fc fy }
{
    matches!(fc, 20..=60) && matches!(fy, 280 | 420 | 520)
}

#[tactic(auto, unfolding(crate::specs::Ranges::loads_ok))]
fn loads_ok(dead: u32, live: u32) -> bool
    ensures { result ≡ loads_ok dead live }
{
    matches!(dead, 1000..=30000) && live <= 50000
}

// This and span_ok are a line of 01's table each: one function over three const parameters would read no plainer, and over plain ones it would
// divide by a variable.
#[tactic(auto, unfolding(crate::specs::Ranges::column_ok))]
fn column_ok(x: u32) -> bool
    ensures { result ≡ column_ok x }
{
    matches!(x, 200..=1500) && x % 10 == 0
}

// A side's code, the last digit to base 4.
fn side_ok(sides: u32) -> bool
    ensures { result ≡ leb (sides % 4) 2 }
{
    sides % 4 <= 2
}

#[tactic(auto, unfolding(crate::specs::Ranges::sides_ok))]
fn sides_ok(sides: u32) -> bool
    ensures { result ≡ sides_ok sides }
{
    sides <= 170
        && side_ok(sides)
        && side_ok(sides / 4)
        && side_ok(sides / 16)
        && side_ok(sides / 64)
}

#[tactic(auto, unfolding(crate::specs::Ranges::columns_ok))]
fn columns_ok(cx: u32, cy: u32, sides: u32) -> bool
    ensures { result ≡ columns_ok cx cy sides }
{
    column_ok(cx) && column_ok(cy) && sides_ok(sides)
}

#[tactic(auto, unfolding(crate::specs::Ranges::span_ok))]
fn span_ok(x: u32) -> bool
    ensures { result ≡ span_ok x }
{
    matches!(x, 1000..=12000) && x % 20 == 0
}

#[tactic(auto, unfolding(crate::specs::Ranges::beam_ok))]
fn beam_ok(width: u32, depth: u32) -> bool
    ensures { result ≡ beam_ok width depth }
{
    match width {
        0 => depth == 0,
        150..=1000 => matches!(depth, 91..=1500),
        _ => false,
    }
}

#[tactic(auto, unfolding(crate::specs::Ranges::offset_ok))]
fn offset_ok(x: u32, y: u32) -> bool
    ensures { result ≡ offset_ok x y }
{
    x <= 12000 && y <= 12000
}

// The kind is a number, not an enum: a file may hold any, and the clause answers for any.
#[tactic(auto, unfolding(crate::specs::Ranges::values_ok))]
pub fn values_ok(k: u32, a: u32, b: u32, c: u32) -> bool
    ensures { result ≡ values_ok k a b c }
{
    // 01 asks for this match on the kind, 1 to 9, with value ranges (01, "Forms to follow in each place").
    match k {
        1 => sizes_ok(a, b, c),
        2 => materials_ok(a as u64, b as u64),
        3 => loads_ok(a, b),
        4 => columns_ok(a, b, c),
        5 | 6 => span_ok(a),
        7 | 8 => beam_ok(a, b),
        9 => offset_ok(a, b),
        _ => false,
    }
}
