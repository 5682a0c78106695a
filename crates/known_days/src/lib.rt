// The days with known outcome of document 01, as one proved table, in specs/. No code.
#![tactic(auto)]
