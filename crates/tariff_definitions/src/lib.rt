// What request S-5 of document 02 means: tariffs. There is no code here: see specs/.
#![tactic(auto)]

pub const VERSION: u8 = 1;
