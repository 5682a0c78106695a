// The model as staged choices: definitions and laws, in specs/. The two marks in the tables and the two units of a key are
// here, for the crates that fill and read them.
#![tactic(auto)]

// The price of a set that has more trains than tracks, or parts a group.
pub const BARRED: u32 = 4294967295;

// The key of what cannot be served.
pub const NONE: u64 = 18446744073709551615;

// A unit of cost, and a revisit, in a key (order 5 of document 02): the cost stands above the revisits, and these above the sum of slot
// numbers, in one word.
pub const COST_UNIT: u64 = 2048;

pub const REVISIT_UNIT: u64 = 128;
