// Lists: the functions that the definitions are written with, and their laws. See specs/.
#![tactic(auto)]

pub const PLACES: u8 = 255;
