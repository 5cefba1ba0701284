// No code: the definitions and laws of specs/, for sums and counts.
#![tactic(auto)]
