// What follows from the definitions for the synthesis: the dedup, what is handed on, the rows and the items. There is no code
// here: see specs/.
#![tactic(auto)]

pub const VERSION: u8 = 1;
