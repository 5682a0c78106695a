// Sets of positions as numbers: definitions and laws, in specs/. No code.
#![tactic(auto)]
