// The floor examples of document 01 as theorems: there is no code here.
#![tactic(auto)]
