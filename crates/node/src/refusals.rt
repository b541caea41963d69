// The numbers of a node file's refusals, each with its condition.

// "length"
pub const LENGTH: usize = 1;
// "trailer's fixed bytes"
pub const FIXED_BYTES: usize = 2;
// "n, or property not below n"
pub const COUNTS: usize = 3;
// "distance wrong or past the start"
pub const DISTANCE: usize = 4;
// "operator over 13, type byte over 1, K against its rule, unused field not 0"; with operators 14 and 15 "5 now says over 15"
pub const SHAPE: usize = 5;
// "not below n"
pub const OPERANDS: usize = 6;
// "no such order"
pub const ORDER: usize = 23;
// "type byte or operand type not the operator's"
pub const TYPES: usize = 7;
// "property not bool"
pub const PROPERTY: usize = 8;
