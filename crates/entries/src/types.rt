// Type cycles for the host: module 3 on a pack that is well-formed.
ghost use Rattle.std.specs.Prelude.{◌≡◌};
ghost use Rattle.entries.specs.Answers.{told};
ghost use Rattle.entries.specs.Types.{types_answer, types_of};

use crate::answers::tell;
use formed::formed;
use laws::Refusal;
use pack::Counts;
use type_cycle::detect_type_cycles;

// The counts of a pack whose definitions have no fault, or the first refusal.
pub fn check_types(pack: &[u8]) -> Result<Counts, Refusal>
    ensures { result ≡ types_answer pack.now }
{
    let c = formed(pack)?;
    detect_type_cycles(pack, c)
}

pub fn rulepack_types(pack: &[u8], place: &mut u32, detail: &mut u64) -> u32
    ensures { told result place.new detail.new ≡ types_of pack.now }
{
    tell(check_types(pack), place, detail)
}
