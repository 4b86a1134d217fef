// Lists of cars: definitions in specs/, no code.
#![tactic(auto)]
