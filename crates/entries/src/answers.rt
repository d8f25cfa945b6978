// An answer as the host gets it: its number is returned, its place and detail are written where the host reads them.
ghost use Rattle.std.specs.Prelude.{◌≡◌};
ghost use Rattle.entries.specs.Answers.{told, answer_told};

use laws::Refusal;

// The number of a report: no refusal has it.
const REPORT: u32 = 0;

pub fn tell<T: Copy>(answer: Result<T, Refusal>, place: &mut u32, detail: &mut u64) -> u32
    ensures { told result place.new detail.new ≡ answer_told answer }
{
    match answer {
        Ok(_) => {
            *place = 0;
            *detail = 0;
            REPORT
        }
        Err(refusal) => {
            *place = refusal.place;
            *detail = refusal.detail;
            refusal.fault.number()
        }
    }
}
