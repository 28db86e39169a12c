// What decoding a sheet comes to: definitions, and theorems about them. There is no code here: see specs/.
#![tactic(auto)]

pub const VERSION: u8 = 1;
