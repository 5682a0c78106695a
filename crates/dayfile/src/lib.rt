// The day file of documents 01 and 02: what a text reads to and what a day is written as, in specs/. The names lines are here, for the
// crates that read and write, and the greatest size, for their buffers.
#![tactic(auto)]

// The greatest size of a day file (specs/Size.antt).
pub const DAY_BYTES: usize = 2437;

pub const HEAD_NAMES: [u8; 34] = *b"trains tracks slots revisit split\n";

pub const TRAIN_NAMES: [u8; 17] = *b"train first last\n";

pub const MOVE_NAMES: [u8; 14] = *b"to from boxes\n";

pub const GROUP_NAMES: [u8; 12] = *b"group train\n";
