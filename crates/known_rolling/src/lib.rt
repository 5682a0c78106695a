// Days that keep moving, with known outcome call by call, as one proved table, in specs/. No code.
#![tactic(auto)]
