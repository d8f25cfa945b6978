// A row's refusal from its three tests.
ghost use Rattle.std.specs.Prelude.{◌≡◌};
ghost use Rattle.rows.specs.Types.{fault_of};

use laws::Fault;

// A row's first fault, if it has one.
#[tactic(auto, unfolding(laws::specs::Choice::pick))]
pub fn fault_of(known: bool, ranged: bool, distinct: bool) -> Option<Fault>
    ensures { result ≡ fault_of known ranged distinct }
{
    if !known {
        Some(Fault::UnknownRow)
    } else if !ranged {
        Some(Fault::OutOfRange)
    } else if !distinct {
        Some(Fault::NotDistinct)
    } else {
        None
    }
}
