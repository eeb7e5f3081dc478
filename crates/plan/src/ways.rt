// The two directions of a floor, and the two ends of what runs along one. 01's "y likewise" is this parameter.
// A way, a line, an end, an x bay i and a y bay j come one by one, here and in the crates above, as the clauses take them.
ghost use Rattle.std.specs.Prelude.{◌≡◌, ◌≤◌, ◌<◌};
ghost use Rattle.plan.specs.Ways.{pick, across, span_kind, line_kind, part_of, side_unit};

// Along x, west to east; along y, south to north.
// A way has several numbers (a part, kinds, a side's unit, a row), so none of them is its discriminant.
#[derive(Clone, Copy)]
pub enum Way {
    X,
    Y,
}

// West or south is the low end, east or north the high end.
#[derive(Clone, Copy)]
pub enum End {
    Low,
    High,
}

pub fn pick(d: Way, x: u32, y: u32) -> u32
    ensures { result ≡ pick d x y }
{
    match d {
        Way::X => x,
        Way::Y => y,
    }
}

pub fn across(d: Way) -> Way
    ensures { result ≡ across d }
{
    match d {
        Way::X => Way::Y,
        Way::Y => Way::X,
    }
}

// The kinds and the part of a direction. Numbers, as the file has them: the clauses of `count_of` and `part_at` speak of any.
pub fn span_kind(d: Way) -> u32
    ensures { result ≡ span_kind d }
{
    pick(d, 5, 6)
}

pub fn line_kind(d: Way) -> u32
    ensures { result ≡ line_kind d }
{
    pick(d, 7, 8)
}

pub fn part_of(d: Way) -> u32
    ensures { (result ≡ part_of d) × (result ≤ 2) }
{
    pick(d, 1, 2)
}

pub fn side_unit(d: Way, e: End) -> u32
    ensures { (result ≡ side_unit d e) × (0 < result) }
{
    match (d, e) {
        (Way::X, End::Low) => 1,
        (Way::X, End::High) => 4,
        (Way::Y, End::Low) => 16,
        (Way::Y, End::High) => 64,
    }
}
