// The numbers of a certificate's refusals but for those of its lines, each with its condition.

// "length"
pub const LENGTH: usize = 11;
// "fixed bytes"
pub const FIXED_BYTES: usize = 12;
// "k or constraint count"
pub const COUNTS: usize = 13;
// "distance, as 4"
pub const DISTANCE: usize = 14;
// "any constraint rule"
pub const CONSTRAINT: usize = 15;
// "no empty line; base first, after all lines"
pub const NO_EMPTY_LINE: usize = 21;
// "progress past the last line"
pub const PROGRESS: usize = 55;
