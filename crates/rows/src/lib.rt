// Laws only: the instructions as rows of masks judge and change every record as the rules do.
#![tactic(auto)]
