// No code: the definitions and laws of specs/, which every other crate shares.
#![tactic(auto)]
