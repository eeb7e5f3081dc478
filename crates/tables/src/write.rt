// Records of a lent slice, written one by one; numbers past them stay.
ghost use Rattle.std.specs.Prelude.{◌≡◌, ◌+◌, ◌*◌, ◌≤◌, length};
ghost use Rattle.std.proofs.Math.Seq.{paste};
ghost use Rattle.numbers.specs.Records.{put};
ghost use Rattle.tables.specs.Blank.{blanked};
ghost use Rattle.tables.specs.Asked.{Room};

// How many numbers a record has.
pub const WIDTH: usize = 16;

// The values, one after another, from `at` on. As `store_at` of crate changes stores bytes: see there.
pub fn write_at(slice: &mut [u32], at: usize, values: &[u32])
    requires { at + length values.now ≤ length slice.old }
    ensures { slice.new ≡ paste slice.old at values.now (length values.now) }
{
    for n in 0..values.len() {
        slice[at + n] = values[n];
    }
}

// Record k of those that have W numbers each and stand one after another. Room is asked, here and in `blank`, and not kept in a type: the slice is the
// caller's, and each call asks it of another record.
pub fn write_record<const W: usize>(records: &mut [u32], k: usize, values: [u32; W])
    requires { k * W + W ≤ length records.old }
    ensures { records.new ≡ put W k values.entry records.old }
{
    write_at(records, k * W, &values);
}

// Zeros in n records. A number beside the table, which may be longer: `blanked n` says that the rest stays.
pub fn blank(table: &mut [u32], n: u32)
    requires { Room n table.old }
    ensures { table.new ≡ blanked n table.old }
{
    // Record by record and not by one fill: 01 asks for it so (01, "Forms to follow in each place").
    for k in 0..n {
        write_record(table, k as usize, [0u32; WIDTH]);
    }
}
