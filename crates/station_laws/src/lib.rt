// The station's three demands, stated in specs/ and proved in proofs/: no code.
#![tactic(auto)]
