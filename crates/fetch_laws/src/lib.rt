// No code: what the test of crate fetch promises is stated in specs/Fetching.antt and proved in proofs/.
#![tactic(auto)]
