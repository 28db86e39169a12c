// Theorems about a tariff: what it charges, what is refused, and that the order of its rows does not matter. There is no code
// here: see specs/.
#![tactic(auto)]

pub const VERSION: u8 = 1;
