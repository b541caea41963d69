// The numbers of a table's refusals, each with its condition.

// "table length wrong, ends reversed, too large or, for a bool, not 0"
pub const TABLE: usize = 71;
// "a range not inside, lowest record"
pub const NOT_INSIDE: usize = 72;
