// Spans, beams and offsets, for a reader that has the bays at hand: they are read once for a call, and not for each field.
// What is not there reads 0 and is no Option: `value` and `offset` of specs/ are numbers for any index.
ghost use Rattle.std.specs.Prelude.{◌≡◌, cond, ◌+◌, ◌≤◌, ltb};
ghost use Rattle.plan.specs.Fields.{part_at};
ghost use Rattle.plan.specs.Ways.{pick, line_kind};
ghost use Rattle.plan.specs.Plan.{bays, value, span, last_line, beam_width, beam_depth, offset};
ghost use Rattle.plan.specs.Asked.{Sized, Entries};

use crate::fields::{A, B, u32_at};
use crate::ways::Way;
use crate::{bays, ways};
use records::kinds::{OFFSETS, start_of};

#[derive(Clone, Copy)]
pub struct Bays {
    pub x: u32,
    pub y: u32,
}

pub fn bays_of(f: &[u8]) -> Bays
    ensures { Sized f.now result }
{
    Bays {
        x: bays(f, Way::X),
        y: bays(f, Way::Y),
    }
}

// How many bays there are along d. Lines are numbered from 0, so the last line along d has the number of the bays across it.
pub fn along(b: Bays, d: Way) -> u32
    ensures { result ≡ pick d b.x b.y }
{
    ways::pick(d, b.x, b.y)
}

// A floor file with its bays.
#[derive(Clone, Copy)]
pub struct Plan<'a> {
    pub bytes: &'a [u8],
    pub bays: Bays,
    pub ghost sized: { Sized bytes.now bays },
}

impl<'a> Plan<'a> {
    pub fn of(bytes: &'a [u8]) -> Plan<'a>
        ensures { result.bytes.now ≡ bytes.now }
    {
        Plan {
            bytes,
            bays: bays_of(bytes),
        }
    }

    pub fn bays_along(&self, d: Way) -> u32
        ensures { (result ≡ bays self.now.bytes.now d) × (result ≤ 12) }
    {
        along(self.bays, d)
    }

    // The number of the last line along d.
    pub fn last_line(&self, d: Way) -> u32
        ensures { (result ≡ last_line self.now.bytes.now d) × (result ≤ 12) }
    {
        self.bays_along(ways::across(d))
    }

    // Part `part` of the i-th of the n records from record `from` on; 0 where there are not that many. Numbers, not a slice: a file may end before them.
    fn entry(&self, from: u32, n: u32, i: u32, part: u32) -> u32
        requires { Entries from n part }
        ensures { result ≡ cond (ltb i n) (part_at self.now.bytes.now (from + i) part) 0 }
    {
        if i < n {
            u32_at(self.bytes, (from + i) * 16 + 4 * part)
        } else {
            0
        }
    }

    // Span i along d.
    #[tactic(auto, using(crate::proofs::AtHand::span_read))]
    pub fn span(&self, d: Way, i: u32) -> u32
        ensures { result ≡ span self.now.bytes.now d i }
    {
        let b = self.bays;
        self.entry(ways::pick(d, 4, 4 + b.x), along(b, d), i, A)
    }

    // The beam on line l along d: its width or its depth.
    #[tactic(auto, using(crate::proofs::AtHand::beam_read))]
    fn beam(&self, d: Way, l: u32, part: u32) -> u32
        requires { part ≤ 3 }
        ensures { result ≡ value self.now.bytes.now (line_kind d) l part }
    {
        let Bays { x, y } = self.bays;
        let from = ways::pick(d, 4 + x + y, 5 + x + 2 * y);
        self.entry(from, ways::pick(d, y, x) + 1, l, part)
    }

    pub fn beam_width(&self, d: Way, l: u32) -> u32
        ensures { result ≡ beam_width self.now.bytes.now d l }
    {
        self.beam(d, l, A)
    }

    pub fn beam_depth(&self, d: Way, l: u32) -> u32
        ensures { result ≡ beam_depth self.now.bytes.now d l }
    {
        self.beam(d, l, B)
    }

    // The offset along d of the column on y line i, x line j.
    #[tactic(auto, using(crate::proofs::AtHand::column_read, crate::proofs::AtHand::off_x, crate::proofs::AtHand::off_y))]
    pub fn offset(&self, d: Way, i: u32, j: u32) -> u32
        ensures { result ≡ offset self.now.bytes.now d i j }
    {
        let Bays { x: nx, y: ny } = self.bays;
        if i <= nx && j <= ny {
            let column = j * (nx + 1) + i;
            u32_at(
                self.bytes,
                (start_of(nx, ny, OFFSETS) + column) * 16 + 4 * ways::part_of(d),
            )
        } else {
            0
        }
    }
}
