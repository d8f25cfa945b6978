// Answers as document 01's numbers, so that what came can be held to what was wanted.
ghost use Rattle.std.specs.Prelude.{◌≡◌};
ghost use Rattle.worked.specs.Answers.{numbers_of};

use laws::Refusal;
use pack::Counts;

#[derive(Clone, Copy, PartialEq)]
pub struct Answer {
    pub number: u64,
    pub place: u64,
    pub detail: u64,
}

pub(crate) fn numbers_of(reading: Result<Counts, Refusal>) -> Answer
    ensures { result ≡ numbers_of reading }
{
    match reading {
        Ok(_) => Answer {
            number: 0,
            place: 0,
            detail: 0,
        },
        Err(refusal) => Answer {
            number: refusal.fault.number() as u64,
            place: refusal.place as u64,
            detail: refusal.detail,
        },
    }
}
