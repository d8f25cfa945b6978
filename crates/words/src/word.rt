// A report's word, bit by bit. The layout stands here and nowhere else.
ghost use Rattle.std.specs.Prelude.{◌≡◌};
ghost use Rattle.words.specs.Words.{encode as encoded};

use unionfind::{number_of, tag_of};

// Where each field starts; the number starts at the lowest bit.
const DIVERGES: u32 = 2147483648;

const CALL: u32 = 536870912;

const TAG: u32 = 67108864;

#[tactic(auto, using(crate::proofs::Noting::bit_small), unfolding(crate::specs::Words::encode))]
pub fn encode(diverges: bool, call: u32, x: u32) -> u32
    ensures { result ≡ encoded diverges call x }
{
    let bit = u32::from(diverges);
    let tag = tag_of(x);
    let number = number_of(x);
    bit * DIVERGES + call % 4 * CALL + tag % 8 * TAG + number
}
