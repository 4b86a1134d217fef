// The form of a desk's messages: definitions and laws; no code.
#![tactic(auto)]
