// The optimum of staged choices: definitions and laws, in specs/. No code.
#![tactic(auto)]
