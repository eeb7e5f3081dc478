// What all panels and all spans of a floor share, read once for a call.
ghost use Rattle.std.specs.Prelude.{◌≡◌};
ghost use Rattle.floor.specs.Asked.{Accepted};
ghost use Rattle.lines.specs.Slabs.{slab_of};

use layouts::{Layout, layout_told};
use plan::read::{Bays, Plan};
use plan::ways::Way;

#[derive(Clone, Copy)]
pub struct Slab {
    pub layout: Layout,
    pub bays: Bays,
    pub t: u32,
    pub fy: u32,
    pub cx: u32,
    pub cy: u32,
    pub dead: u32,
    pub live: u32,
}

// Three beams tell the layout, which an accepted floor has.
pub fn slab_of(f: &[u8]) -> Slab
    requires { Accepted f.now }
    ensures { result ≡ slab_of f.now }
{
    let plan = Plan::of(f);
    Slab {
        layout: layout_told(&plan),
        bays: plan.bays,
        t: plan::thickness(f),
        fy: plan::grade(f),
        cx: plan::column(f, Way::X),
        cy: plan::column(f, Way::Y),
        dead: plan::dead(f),
        live: plan::live(f),
    }
}
