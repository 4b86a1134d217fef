// No code: the laws of the numbers are stated in specs/Statements.antt and proved in proofs/.
#![tactic(auto)]
