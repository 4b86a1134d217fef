// What is promised of plans, stated in specs/ and proved in proofs/: no code.
#![tactic(auto)]
