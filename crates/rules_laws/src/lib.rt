// No code: the laws of the rules are stated in specs/Laws.antt and proved in proofs/.
#![tactic(auto)]
