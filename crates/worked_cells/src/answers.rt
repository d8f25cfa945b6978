// Answers held to what is wanted: a refusal, or that nothing is refused.
use laws::{Fault, Refusal};

// The refusal that is wanted, if one is.
pub type Wanted = Option<Refusal>;

pub(crate) fn is_answer(a: Result<(), Refusal>, wanted: Wanted) -> bool {
    a.err() == wanted
}

pub(crate) fn is_full(m: Result<u32, Refusal>) -> bool {
    m.err() == Some(Refusal::at(Fault::NoRoom, 0))
}
