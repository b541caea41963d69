// The numbers of a line's refusals, each with its condition.

// "kind, count, listed literal naming no atom, kind 4 multiplier, unused field not 0"
pub const SHAPE: usize = 16;
// "kind 1, 2, 3, 4 not as above"
pub const EQUATION: usize = 17;

pub const PROPERTY: usize = 18;

pub const JOIN: usize = 19;

pub const ARITHMETIC: usize = 20;
// "a kind 5 line not as described, multipliers included"
pub const CUT: usize = 22;
