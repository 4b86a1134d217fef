// The laws of messages; no code.
#![tactic(auto)]
