// What is promised of a desk's messages; no code.
#![tactic(auto)]
