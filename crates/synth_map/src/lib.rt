// What the synthesis and the schedule start from: the map of a sheet as the code holds it. There is no code here: see specs/.
#![tactic(auto)]

pub const VERSION: u8 = 1;
