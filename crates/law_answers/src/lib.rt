// How large the parts of an answer are. There is no code here: see specs/.
#![tactic(auto)]

pub const VERSION: u8 = 1;
