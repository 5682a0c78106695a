// The file of a long day (order 9 of document 02): the laws of the day file at the limits of long days, in specs/. Here is the greatest
// size, for the buffers of those who write.
#![tactic(auto)]

// The greatest size of a long day's file (specs/LongFile.antt).
pub const LONG_DAY_BYTES: usize = 20677;
