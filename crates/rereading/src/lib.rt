// What is written reads back: laws alone, with no code.
#![tactic(auto)]
