// Sample texts of day files with what each reads to, as one proved table, in specs/. No code.
#![tactic(auto)]
