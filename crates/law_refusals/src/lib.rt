// Each of the eleven refusals exactly on its condition, for both calls; fewer rows under a smaller limit. There is no code here:
// see specs/.
#![tactic(auto)]

pub const REFUSALS: u8 = 11;
