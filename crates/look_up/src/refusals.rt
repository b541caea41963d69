// The numbers of a look-up's refusals, each with its condition.

// The numbers that are given are not the inputs of the instants.
pub const INPUT_COUNT: usize = 31;
// "bool input not 0 or 1"
pub const BOOL_INPUT: usize = 33;
// "value outside −2^63 to 2^63 − 1"
pub const OUTSIDE_RANGE: usize = 34;
// "history over 16 instants, or stream or instant out of it"
pub const NOT_IN_HISTORY: usize = 65;
