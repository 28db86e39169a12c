// Theorems about reading a schedule back: what the two calls accept, and that each undoes the other. There is no code here:
// see specs/.
#![tactic(auto)]

pub const VERSION: u8 = 1;
