// What the archive's rows mean (document 02, §10): definitions and laws, and no code.
#![tactic(auto)]
