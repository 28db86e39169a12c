// The visit of the synthesis in two steps: first which types are reached, in which order, then what comes of each. There is
// no code here: see specs/.
#![tactic(auto)]

pub const VERSION: u8 = 1;
