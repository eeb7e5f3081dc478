// Document 004, least thickness: the example that its first page ends, and Example 5. In thousandths of a mm, as it prints them.
ghost use Rattle.thickness.specs.Asked.{PanelSizes};

use crate::compare::formula;
use std::io;
use std::io::Write;
use thickness::{Panel, PanelPlace, least_thickness};

// Of an inner panel, fy 420.
fn inner<W: Write>(
    out: &mut W,
    number: u32,
    theirs: u32,
    everywhere: bool,
    sn: u64,
    ln: u64,
    s: u64,
) -> io::Result<()>
    requires { PanelSizes 420 sn ln }
{
    let panel = Panel {
        everywhere: everywhere,
        place: PanelPlace::Inner,
        fy: 420,
        sn: sn,
        ln: ln,
        s: s,
        weak: false,
    };
    formula(out, number, theirs, 1000 * least_thickness(panel))
}

pub fn all<W: Write>(out: &mut W) -> io::Result<()> {
    inner(out, 401, 150118, true, 5800, 5800, 60000)?;
    inner(out, 402, 146388, true, 5000, 6300, 92000)?;
    inner(out, 403, 136723, true, 5000, 5500, 68000)?;
    inner(out, 404, 136364, false, 4200, 4500, 0)?;
    inner(out, 405, 178788, false, 4200, 5900, 0)
}
