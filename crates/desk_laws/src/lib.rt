// The promises of the desk; no code.
#![tactic(auto)]
