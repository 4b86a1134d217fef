// What is promised of the plain engine, stated in specs/ and proved in proofs/: no code.
#![tactic(auto)]
