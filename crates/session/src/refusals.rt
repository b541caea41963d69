// The numbers of a session's refusals, each with its condition.

// "record holds no node passing 1 to 8, or, past instant 0, a bool of the last answered instant is not 0 or 1"; it "looks at a held
// trial's bools too"
pub const NO_NODE: usize = 30;
// "input count"
pub const INPUT_COUNT: usize = 31;
// "value slice length"
pub const SLICE_LENGTH: usize = 32;
// "bool input not 0 or 1; lowest record"
pub const BOOL_INPUT: usize = 33;
// "value outside −2^63 to 2^63 − 1", at "the first stream in the worked-out order"
pub const OUTSIDE_RANGE: usize = 34;
// "commit with no trial held"
pub const NO_TRIAL: usize = 35;
