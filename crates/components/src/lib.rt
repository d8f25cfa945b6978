// The theory of walks and of the one-pass search for components: definitions in specs/, what holds of them in proofs/.
// The code that it is about is in the crates `tarjan` and `value_cycle`.
#![tactic(auto)]
