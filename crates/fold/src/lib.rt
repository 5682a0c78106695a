// Sums, counts, tests and searches over the indices below a bound: definitions and laws, in specs/. No code.
#![tactic(auto)]
