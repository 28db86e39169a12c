// What follows from a map of a sheet being held by the code. There is no code here: see specs/.
#![tactic(auto)]

pub const VERSION: u8 = 1;
