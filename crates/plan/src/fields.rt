// Little-endian fields of a file. What lies past the end reads 0; a caller that knows that a record lies in the file reads it without a test.
#![tactic(auto, unfolding(crate::specs::Fields::le16, crate::specs::Fields::le32))]

ghost use Rattle.std.specs.Prelude.{◌≡◌, ◌+◌, ◌*◌, get_or};
ghost use Rattle.plan.specs.Asked.{InFile, PartIn};
ghost use Rattle.plan.specs.Fields.{le16, le32, kind_at, index_at, part_at};

// The parts of a record after its kind and index. A part is a number, here and where lib.rt and read.rt hand one on: the clause of part_at
// takes a number.
pub const A: u32 = 1;

pub const B: u32 = 2;

pub const C: u32 = 3;

fn byte(f: &[u8], at: usize) -> u8
    ensures { result ≡ get_or f.now at 0 }
{
    // Not by `get`, whose Option holds an address: the page compiles this module for addresses of 32 bits.
    if at < f.len() { f[at] } else { 0 }
}

// Takes bytes one by one, as `four` does: an array made of a slice is a Result, with a failure that cannot be.
fn two(a: u8, b: u8) -> u32
    ensures { result ≡ a + 256 * b }
{
    u16::from_le_bytes([a, b]) as u32
}

fn four(a: u8, b: u8, c: u8, d: u8) -> u32
    ensures { result ≡ a + 256 * b + 65536 * c + 16777216 * d }
{
    u32::from_le_bytes([a, b, c, d])
}

// One test for all bytes of a field, here and in u32_at: a record's fields are read far more often than a file's end is met. Two functions: one
// over the width would walk the bytes in a loop.
pub fn u16_at(f: &[u8], at: u32) -> u32
    ensures { result ≡ le16 f.now at }
{
    let i = at as usize;
    if i + 2 <= f.len() {
        two(f[i], f[i + 1])
    } else {
        two(byte(f, i), byte(f, i + 1))
    }
}

pub fn u32_at(f: &[u8], at: u32) -> u32
    ensures { result ≡ le32 f.now at }
{
    let i = at as usize;
    if i + 4 <= f.len() {
        four(f[i], f[i + 1], f[i + 2], f[i + 3])
    } else {
        four(byte(f, i), byte(f, i + 1), byte(f, i + 2), byte(f, i + 3))
    }
}

// Of record q, which lies in the file: its kind, its index, and a part.
// The kind is the number that stands there, which may be none of 01's. Kind and index by two names, as 01 has them: what they share is `two`.
pub fn kind_at(f: &[u8], q: u32) -> u32
    requires { InFile f.now q }
    ensures { result ≡ kind_at f.now q }
{
    let i = (q as usize) * 16;
    two(f[i], f[i + 1])
}

pub fn index_at(f: &[u8], q: u32) -> u32
    requires { InFile f.now q }
    ensures { result ≡ index_at f.now q }
{
    let i = (q as usize) * 16 + 2;
    two(f[i], f[i + 1])
}

pub fn part_at(f: &[u8], q: u32, part: u32) -> u32
    requires { PartIn f.now q part }
    ensures { result ≡ part_at f.now q part }
{
    let i = (q as usize) * 16 + 4 * (part as usize);
    four(f[i], f[i + 1], f[i + 2], f[i + 3])
}
