// The panel of x bay i and y bay j, and its least thickness.
ghost use Rattle.std.specs.Prelude.{◌≡◌, ◌&&◌, ◌||◌, ◌+◌, ◌-◌, ◌≤◌, ◌<◌, leb, get_or};
ghost use Rattle.plan.specs.declared.ways.Way.TheVariants.{X as AlongX, Y as AlongY};
ghost use Rattle.plan.specs.Plan.{thickness};
ghost use Rattle.layouts.specs.Layouts.{outer_line};
ghost use Rattle.lines.specs.Lines.{is_everywhere, weak_line, place_of, panel_view, panel_thickness};
ghost use Rattle.lines.specs.Rows.{row_of, weak_at};
ghost use Rattle.lines.specs.Asked.{Clearing, StiffPanel};

use crate::line::{X, Y, pair_alpha};
use crate::survey::Survey;
use layouts::{Layout, outer_line};
use numbers::{both, either};
use plan::read::Bays;
use plan::ways::Way;
use thickness::{Panel, PanelPlace, enough, least_thickness};

pub fn is_everywhere(layout: Layout) -> bool
    ensures { result ≡ is_everywhere layout }
{
    match layout {
        Layout::Everywhere => true,
        Layout::OuterOnly => false,
        Layout::Bare => false,
    }
}

// An outer panel with a weak edge counts as having no beam there; without one α is 0.
fn place(outside: bool, weak: bool) -> PanelPlace
    ensures { result ≡ place_of outside weak }
{
    if outside {
        if weak {
            PanelPlace::Bare
        } else {
            PanelPlace::Edged
        }
    } else {
        PanelPlace::Inner
    }
}

// Of lines 0 to last, is one of those beside bay k an outer line?
fn touches(last: u32, k: u32) -> bool
    requires { k < 12 }
    ensures { result ≡ (outer_line last k || outer_line last (k + 1)) }
{
    outer_line(last, k) || outer_line(last, k + 1)
}

fn outer_panel(nx: u32, ny: u32, i: u32, j: u32) -> bool
    requires { (i < 12) × (j < 12) }
    ensures { result ≡ ((outer_line ny j || outer_line ny (j + 1)) || (outer_line nx i || outer_line nx (i + 1))) }
{
    touches(ny, j) || touches(nx, i)
}

// Of lines 0 to last, is line l an outer one with α below 8000?
fn weak_line(last: u32, alpha: u64, l: u32) -> bool
    ensures { result ≡ weak_line last alpha l }
{
    both(outer_line(last, l), alpha < 8000)
}

// Is one of the two lines beside bay k weak? Their α are at hand.
fn weak_beside(last: u32, a: &[u64; 13], k: u32) -> bool
    requires { k < 12 }
    ensures { result ≡ weak_at last a.now k }
{
    let low = k as usize;
    let high = low + 1;
    either(weak_line(last, a[low], k), weak_line(last, a[high], k + 1))
}

// Is one of the panel's four lines weak? An inner panel has no outer line, so nothing is asked.
fn weak_edge(outside: bool, bays: Bays, alphas: &[[u64; 13]; 2], i: u32, j: u32) -> bool
    requires { (i < 12) × (j < 12) }
    ensures { result ≡ (outside && (weak_at bays.y (row_of alphas.now AlongX) j || weak_at bays.x (row_of alphas.now AlongY) i)) }
{
    if outside {
        weak_beside(bays.y, &alphas[X], j) || weak_beside(bays.x, &alphas[Y], i)
    } else {
        false
    }
}

// Of bay k, whose spans are at hand.
fn clear_span(s: &[u64; 13], column: u32, k: u32) -> u64
    requires { Clearing s.now column k }
    ensures { result ≡ get_or s.now k 0 - column }
{
    let i = k as usize;
    s[i] - (column as u64)
}

// `StiffPanel` is asked, here, in `extremes` and in `clear`: a caller asks one or two things of a panel, and a type would be built for these.
impl Survey<'_> {
    // Of the panel, with α of its four lines at hand. A survey and these, here and below, not a `Lines`: the panel query has α of no other line.
    // Inlined, so that the walk over panels reads the same line's numbers once.
    #[inline(always)]
    fn panel_view(&self, alphas: &[[u64; 13]; 2], i: u32, j: u32) -> Panel
        requires { StiffPanel self.now.floor.bytes.now alphas.now i j }
        ensures { result ≡ panel_view self.now.floor.bytes.now i j }
    {
        let slab = self.floor.slab;
        let x = clear_span(self.spans_along(Way::X), slab.cx, i);
        let y = clear_span(self.spans_along(Way::Y), slab.cy, j);
        let along_x = pair_alpha(&alphas[X], j);
        let along_y = pair_alpha(&alphas[Y], i);
        let outside = outer_panel(slab.bays.x, slab.bays.y, i, j);
        let weak = weak_edge(outside, slab.bays, alphas, i, j);
        Panel {
            everywhere: is_everywhere(slab.layout),
            place: place(outside, weak),
            fy: slab.fy as u64,
            sn: x.min(y),
            ln: x.max(y),
            s: along_x + along_y,
            weak,
        }
    }

    pub fn panel_thickness(&self, alphas: &[[u64; 13]; 2], i: u32, j: u32) -> u64
        requires { StiffPanel self.now.floor.bytes.now alphas.now i j }
        ensures { (result ≡ panel_thickness self.now.floor.bytes.now i j) × (90 ≤ result) × (result ≤ 423) }
    {
        least_thickness(self.panel_view(alphas, i, j))
    }

    // Is t enough for the panel? By 01's inequality, of the largest answer that t allows: the least thickness would take a division by a variable.
    pub fn thick_enough(&self, alphas: &[[u64; 13]; 2], i: u32, j: u32) -> bool
        requires { StiffPanel self.now.floor.bytes.now alphas.now i j }
        ensures { result ≡ leb (panel_thickness self.now.floor.bytes.now i j) (thickness self.now.floor.bytes.now) }
    {
        enough(self.panel_view(alphas, i, j), self.floor.slab.t as u64)
    }
}
