// Theorems about the schedule: its bytes determine it, and what is written is legal. There is no code here: see specs/.
#![tactic(auto)]

pub const VERSION: u8 = 1;
