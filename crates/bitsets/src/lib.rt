// Sets of numbers below 64, one number each: k stands in the set where bit k is 1. Such a number is no type of its own: each
// index, shift and comparison would open it, three for each clause that says what it is below.
#![tactic(auto)]

ghost use Rattle.std.specs.Prelude.{◌≡◌, ◌<◌};
ghost use Rattle.std.specs.Iterator.{item_count};
ghost use Rattle.bitsets.specs.Bitsets.{members, Lowest, Rest, Walks, more, less, first_bits};
ghost use Rattle.rows.specs.Rows.{has_bit};

// Whether k stands in a set.
pub fn has(set: u64, k: usize) -> bool
    requires { k < 64 }
    ensures { result ≡ has_bit set k }
{
    (set >> k) & 1 == 1
}

// The lowest number of a set.
pub fn lowest(set: u64) -> usize
    requires { 0 < set }
    ensures { Lowest set result }
{
    u64::trailing_zeros(set) as usize
}

// The set without its lowest number.
pub fn rest(set: u64) -> u64
    requires { 0 < set }
    ensures { Rest set result }
{
    set & (set - 1)
}

// A set with one number more.
pub fn with_one(set: u64, k: usize) -> u64
    requires { k < 64 }
    ensures { result ≡ more set k }
{
    let one: u64 = 1;
    let bit = one << k;
    set | bit
}

// What stands in the first set and not in the second.
pub fn without(set: u64, other: u64) -> u64
    ensures { result ≡ less set other }
{
    set ^ (set & other)
}

// The first numbers: those below the count, and at most 64.
pub fn first(count: u64) -> u64
    ensures { result ≡ first_bits count }
{
    if count < 64 {
        let one: u64 = 1;
        let bit = one << count;
        return bit - 1;
    }
    u64::MAX
}

// A walk over a set: its numbers, ascending.
#[derive(Drop)]
pub struct Walk {
    pub left: u64,
}

impl Iterator for Walk {
    type Item = usize;

    ghost next_gives = { λ s r t. Walks s.left r t.left };

    ghost remaining = { item_count (λ s. members s.left) };

    fn next(&mut self) -> Option<usize> {
        if self.left == 0 {
            return None;
        }
        let k = lowest(self.left);
        self.left = rest(self.left);
        Some(k)
    }
}

// The numbers of a set, ascending.
pub fn members(set: u64) -> Walk
    ensures { result.left ≡ set }
{
    Walk { left: set }
}
