// Which types the visit of the synthesis reaches, and in which order, as places in name order: each once, behind its
// ancestors (FORMAT 8.6).
#![tactic(auto)]

ghost use Rattle.std.specs.Prelude.{◌≡◌, ◌<◌, ◌≤◌};
ghost use Rattle.synth_visiting.specs.Trails.{Orderly, TrailOf};
ghost use Rattle.synth_visiting.specs.Holding.{Marked, Pushed, Held, ReachedFrom, NothingHeld};

use bounded::UpTo;
use order_form::Parents;

// A type that is reached: its place, and bit i of fresh is set if its listing i was the first to reach that parent.
#[derive(Clone, Copy)]
pub struct Arrival {
    pub place: u8,
    pub fresh: u8,
}

// The types reached, in order, and the places seen, as bits.
#[derive(Clone, Copy)]
pub struct Trail {
    pub arrivals: UpTo<Arrival, 64>,
    pub seen: u64,
}

impl Trail {
    // No type is reached yet.
    fn empty() -> Trail
        ensures { NothingHeld result }
    {
        let none = Arrival { place: 0, fresh: 0 };
        let arrivals = UpTo::new(none);
        Trail { arrivals, seen: 0 }
    }

    // One place more.
    #[tactic(auto, using(crate::specs::Holding::one_more))]
    fn push(&mut self, t: usize, flags: u8)
        requires { (self.old.arrivals.count < 64) × (t < 64) }
        ensures { Pushed self.old t flags self.new }
    {
        let arrival = Arrival {
            place: t as u8,
            fresh: flags,
        };
        self.arrivals.push(arrival);
        self.seen = bitsets::with_one(self.seen, t);
    }
}

// The flags of the listings so far, with bit i set if place t is not seen yet.
#[tactic(auto, using(crate::specs::Holding::marked_no, crate::specs::Holding::marked_yes))]
fn marked(flags: u8, i: usize, seen: u64, t: usize) -> u8
    requires { (i < 8) × (t < 64) }
    ensures { Marked flags i seen t result }
{
    if bitsets::has(seen, t) {
        return flags;
    }
    flags | (1u8 << i)
}

// Tries type t. In an order the parents of t stand before it, so the place in the order falls at each call, and t is not
// reached while its parents are tried.
fn reach(l: &Parents, t: usize, trail: &mut Trail)
    requires orderly { Orderly l.now }
    requires t_bound { (t < l.now.count) × Held l.now trail.old }
    ensures { ReachedFrom l.now t trail.old trail.new }
{
    if bitsets::has(trail.seen, t) {
        return;
    }
    let mut flags: u8 = 0;
    for i in 0..usize::from(l.counts[t]) {
        let place = l.place(t, i);
        flags = marked(flags, i, trail.seen, place);
        reach(l, place, trail);
    }
    trail.push(t, flags);
}

// The types that are reached when all are tried in name order.
pub fn trail_of(l: &Parents) -> Trail
    requires { Orderly l.now }
    ensures { TrailOf l.now result }
{
    let mut trail = Trail::empty();
    for t in 0..l.count {
        reach(l, t, &mut trail);
    }
    trail
}
