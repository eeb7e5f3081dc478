// A rectangle of concrete, a beam with its flange, and the beam on an outer line.
ghost use Rattle.std.specs.Prelude.{◌≡◌, ◌*◌, ◌/◌, ◌≤◌};
ghost use Rattle.stiffness.specs.Asked.{Beam, Deeper, Flanged, Part, Sides, Term};
ghost use Rattle.stiffness.specs.Sections.{area, cube, inertia, torsion, flange, overhang, apart, flanged_inertia, edge_torsion};

// No range stands in the type, and t comes beside it: what is asked (`Part`, `Sides`, `Beam`, `Deeper`) depends on what it is taken for.
#[derive(Clone, Copy)]
pub struct Section {
    pub width: u64,
    pub depth: u64,
}

impl Section {
    pub fn of(width: u64, depth: u64) -> Self
        ensures { (result.width ≡ width) × (result.depth ≡ depth) }
    {
        Self { width, depth }
    }

    fn area(self) -> u64
        requires { Part self.width self.depth }
        ensures { (result ≡ area self.width self.depth) × (result ≤ 3600000) }
    {
        self.width * self.depth
    }

    // Twelve times the inertia, of the rectangle by itself.
    #[tactic(auto, unfolding(crate::specs::Sections::inertia))]
    fn inertia(self) -> u64
        requires { Part self.width self.depth }
        ensures { (result ≡ inertia self.width self.depth) × (result ≤ 8100000000000) }
    {
        let b = self.width;
        let h = self.depth;
        b * (h * h * h)
    }

    // 3·(b·h)·(p·t)·(h − t)²: the largest number on the way.
    #[tactic(auto, using(crate::proofs::Stiffness::apart_most))]
    fn apart(self, flange: Section) -> u64
        requires { Flanged self.width self.depth flange.width flange.depth }
        ensures { (result ≡ apart self.width self.depth flange.width flange.depth) × (result ≤ 4805419921875000000) }
    {
        let h = self.depth;
        let t = flange.depth;
        let below = h - t;
        let square = below * below;
        3 * self.area() * flange.area() * square
    }

    // Twelve times the inertia of this beam and the flange beside its upper edge, as one section.
    #[tactic(auto, using(crate::proofs::Stiffness::flanged_most), unfolding(crate::specs::Sections::flanged_inertia))]
    pub fn with_flange(self, flange: Section) -> u64
        requires { Flanged self.width self.depth flange.width flange.depth }
        ensures { (result ≡ flanged_inertia self.width self.depth flange.width flange.depth) × (result ≤ 12000000 * cube flange.depth) }
    {
        let areas = self.area() + flange.area();
        self.inertia() + flange.inertia() + last_term(self.apart(flange), areas)
    }

    #[tactic(auto, unfolding(crate::specs::Sections::torsion))]
    pub fn torsion(self) -> u64
        requires { Sides self.width self.depth }
        ensures { (result ≡ torsion self.width self.depth) × (result ≤ 220000000000000) }
    {
        let x = self.width.min(self.depth);
        let y = self.width.max(self.depth);
        x * x * x * (100 * y - 63 * x)
    }
}

fn last_term(apart: u64, areas: u64) -> u64
    requires { Term apart areas }
    ensures { result ≡ apart / areas }
{
    apart / areas
}

// The flange f: what the slab adds to a beam.
#[tactic(auto, unfolding(crate::specs::Sections::flange))]
pub fn flange(h: u64, t: u64) -> u64
    requires { Deeper h t }
    ensures { (result ≡ flange h t) × (result ≤ 1200) }
{
    (h - t).min(4 * t)
}

// p: the flange is on one side outside, on both inside.
pub fn overhang(outer: bool, h: u64, t: u64) -> u64
    requires { Deeper h t }
    ensures { (result ≡ overhang outer h t) × (result ≤ 2 * flange h t) }
{
    let f = flange(h, t);
    if outer { f } else { 2 * f }
}

// T of the beam on an outer line.
#[tactic(auto, unfolding(crate::specs::Sections::edge_torsion))]
pub fn edge_torsion(beam: Section, t: u64) -> u64
    requires { Beam beam.width beam.depth t }
    ensures { (result ≡ edge_torsion beam.width beam.depth t) × (result ≤ 440000000000000) }
{
    let b = beam.width;
    let h = beam.depth;
    if b == 0 {
        return 0;
    }
    let f = flange(h, t);
    let one = Section::of(b, h).torsion() + Section::of(f, t).torsion();
    let two = Section::of(b, h - t).torsion() + Section::of(b + f, t).torsion();
    one.max(two)
}
