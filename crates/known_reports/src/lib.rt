// Texts of several day files with their reports, as one proved table, in specs/. No code.
#![tactic(auto)]
