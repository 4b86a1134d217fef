// The station over any rules: definitions and theorems in proofs/, no code.
#![tactic(auto)]
