// The language of rules, with no code: which readings a text has, what is answered, and the theorem between the two.
#![tactic(auto)]
