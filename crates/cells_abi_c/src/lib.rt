// The function of `cells_abi` as C calls it, for tests alone. A slice is a pointer and then a length.
#![tactic(auto)]

ghost use Rattle.std.specs.Prelude.{◌≡◌};
ghost use Rattle.cells_abi.specs.Script.{replay_of};

#[unsafe(no_mangle)]
pub extern "C" fn cells_replay(script: &[u32], ops: u32, answers: &mut [u32])
    ensures { answers.new ≡ replay_of script.now ops answers.old }
{
    cells_abi::cells_replay(script, ops, answers)
}
