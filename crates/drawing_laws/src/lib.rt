// What is promised of drawings, stated in specs/ and proved in proofs/: no code.
#![tactic(auto)]
