// The published model, over plain data: definitions and laws, in specs/. No code.
#![tactic(auto)]
