// An accepted floor with what is read or worked out once for all its lines, spans and panels. What each type says of its fields holds of every
// value, so that a function which takes one asks no more of its caller.
ghost use Rattle.std.specs.Prelude.{◌≡◌};
ghost use Rattle.floor.specs.Refusal.{refusal};
ghost use Rattle.lines.specs.Slabs.{slab_of};
ghost use Rattle.lines.specs.Rows.{AllSpans, AllAlphas};
ghost use Rattle.floor.specs.Asked.{Accepted};

use crate::slab::{Slab, slab_of};
use plan::read::Plan;

// With what all its panels and spans share.
#[derive(Clone, Copy)]
pub struct Floor<'a> {
    pub bytes: &'a [u8],
    pub slab: Slab,
    pub ghost accepted: { refusal bytes.now ≡ 0 },
    pub ghost shared: { slab ≡ slab_of bytes.now },
}

impl<'a> Floor<'a> {
    pub fn of(bytes: &'a [u8]) -> Floor<'a>
        requires { Accepted bytes.now }
        ensures { result.bytes.now ≡ bytes.now }
    {
        let slab = slab_of(bytes);
        Floor { bytes, slab }
    }

    pub fn plan(&self) -> Plan<'a>
        ensures { (result.bytes.now ≡ self.now.bytes.now) × (result.bays ≡ self.now.slab.bays) }
    {
        Plan {
            bytes: self.bytes,
            bays: self.slab.bays,
        }
    }
}

// And with every span.
#[derive(Clone, Copy)]
pub struct Survey<'a> {
    pub floor: Floor<'a>,
    pub spans: [[u64; 13]; 2],
    pub ghost measured: { AllSpans floor.bytes.now spans },
}

// And with α of every line.
#[derive(Clone, Copy)]
pub struct Lines<'a> {
    pub survey: Survey<'a>,
    pub alphas: [[u64; 13]; 2],
    pub ghost stiff: { AllAlphas survey.floor.bytes.now alphas },
}
