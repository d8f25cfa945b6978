// A refusal: what for, the place and the detail. Every layer that can refuse answers with one.
ghost use Rattle.std.specs.Prelude.{◌≡◌};
ghost use Rattle.laws.specs.Faults.{refusal};

use crate::fault::Fault;

#[derive(Clone, Copy, Debug, PartialEq, Eq)]
pub struct Refusal {
    pub fault: Fault,
    pub place: u32,
    pub detail: u64,
}

impl Refusal {
    // With no detail.
    pub fn at(fault: Fault, place: u32) -> Self
        ensures { result ≡ refusal fault place 0 }
    {
        Refusal {
            fault: fault,
            place: place,
            detail: 0,
        }
    }
}
