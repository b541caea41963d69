// What never changes while lines are checked, read once and passed by value.

// Of the trailer, where constraint 0 and line 0 stand, and of the node.
#[derive(Clone, Copy)]
pub struct Frame {
    pub depth: u8,
    pub constraints: usize,
    pub base: usize,
    pub step: usize,
    pub start: usize,
    pub lines: usize,
    pub streams: usize,
    pub property: u16,
}
