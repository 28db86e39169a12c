// Where the parents of a type stand: declared, within the compact form, and earlier in an order. There is no code here: see
// specs/.
#![tactic(auto)]

pub const VERSION: u8 = 1;
