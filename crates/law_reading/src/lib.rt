// Theorems about reading a sheet and about the refusals. There is no code here: see specs/.
#![tactic(auto)]

pub const VERSION: u8 = 1;
