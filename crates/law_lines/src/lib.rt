// Theorems about the lines of a map. There is no code here: see specs/.
#![tactic(auto)]

pub const VERSION: u8 = 1;
