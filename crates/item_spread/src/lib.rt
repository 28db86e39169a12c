// What the types of a set pass on, united; and a set with one type more.
#![tactic(auto)]

ghost use Rattle.std.specs.Prelude.{◌≤◌, ◌<◌, length};
ghost use Rattle.item_spread.specs.Spread.{United, WithIf};

// What the types of a set pass on, united (FORMAT 4.4). `passed` is a slice: an array would ask for exactly 64 places, and so more
// of callers.
pub fn united(types: u64, passed: &[u64]) -> u64
    requires { 64 ≤ length passed.now }
    ensures { United types passed.now result }
{
    let mut out: u64 = 0;
    for p in bitsets::members(types) {
        out = out | passed[p];
    }
    out
}

// A set, with p in it if that is met.
#[tactic(auto, using(crate::specs::SpreadLaws::with_none, crate::specs::SpreadLaws::with_one))]
pub fn with_if(types: u64, p: usize, met: bool) -> u64
    requires { p < 64 }
    ensures { WithIf types p met result }
{
    if met {
        bitsets::with_one(types, p)
    } else {
        types
    }
}
