// What is promised of a journal that another follows, stated in specs/ and proved in proofs/: no code.
#![tactic(auto)]
