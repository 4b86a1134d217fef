// The station behind its bytes: messages and entries as calls; no code.
#![tactic(auto)]
