// What the code of all layers shares: the faults, the refusal that names one, and an array read and written at any place.
#![tactic(auto)]

ghost use Rattle.std.specs.Prelude.{◌≡◌};
ghost use Rattle.laws.specs.Bounded.{get, put};
ghost use Rattle.laws.specs.Faults.{need};

mod fault;
mod refusal;

pub use fault::Fault;
pub use refusal::Refusal;

// Where the test fails, that refusal at place 0.
#[tactic(auto, unfolding(crate::specs::Choice::pick))]
pub fn need(ok: bool, fault: Fault) -> Result<(), Refusal>
    ensures { result ≡ need ok fault }
{
    if ok {
        Ok(())
    } else {
        Err(Refusal::at(fault, 0))
    }
}

// What an array holds at a place, 0 past its end.
#[tactic(auto, unfolding(crate::specs::Bounded::get, crate::specs::Choice::pick))]
pub fn get_at<const N: usize>(xs: &[u32; N], i: u32) -> u32
    ensures { result ≡ get N xs.now i }
{
    xs.get(i as usize).copied().unwrap_or(0)
}

// Stores a number at a place of an array; past its end nothing is stored.
#[tactic(auto, unfolding(crate::specs::Bounded::put, crate::specs::Choice::pick))]
pub fn put_at<const N: usize>(xs: &mut [u32; N], i: u32, v: u32)
    ensures { xs.new ≡ put N xs.old i v }
{
    if (i as usize) < N {
        xs[i as usize] = v;
    }
}
