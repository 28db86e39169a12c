// Demand 3 on the definitions: relisted sheets get alike answers. There is no code here: see specs/.
#![tactic(auto)]

pub const CALLS: u8 = 2;
