// Long days with known plans, as one proved table, in specs/. No code.
#![tactic(auto)]
