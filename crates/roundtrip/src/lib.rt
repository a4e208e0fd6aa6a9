// What is written reads back as the same list. Laws only: no function is here.
#![tactic(auto)]
