// What is promised of the rooms of a report beside a station; no code.
#![tactic(auto)]
