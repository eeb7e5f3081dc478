// The width of a strip that is left for bars (02, Five); 0 where nothing is left.
ghost use Rattle.std.specs.Prelude.{◌≡◌};
ghost use Rattle.bars.specs.Widths.{beam_off, column_width, middle_width};

// What the beam takes of the column strip.
fn beam_off(outer: bool, beam: u32) -> u64
    ensures { result ≡ beam_off outer beam }
{
    let b = beam as u64;
    if outer { (b + 1) / 2 } else { b }
}

pub fn column_width(outer: bool, strip: u64, beam: u32) -> u64
    ensures { result ≡ column_width outer strip beam }
{
    let off = beam_off(outer, beam);
    strip.saturating_sub(off)
}

pub fn middle_width(width: u64, strip: u64) -> u64
    ensures { result ≡ middle_width width strip }
{
    width.saturating_sub(strip)
}
