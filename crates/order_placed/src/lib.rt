// Which types the rounds of the order place, as a set, whatever parents are listed: what the diagnosis of a map without an order
// asks. A type is its place in name order.
#![tactic(auto)]

ghost use Rattle.std.specs.Prelude.{◌≡◌, not, ◌<◌};
ghost use Rattle.lists.specs.Lists.{any, all, null};
ghost use Rattle.order_form.specs.Reading.{listed, self_in};
ghost use Rattle.order_form.specs.Rounds.{placed, lists_self};
ghost use Rattle.order_placed.specs.Placing.{free_in, Passed, PlacedAll};

use order_form::Parents;

// Whether type t lists a parent as `self`.
fn lists_self(l: &Parents, t: usize) -> bool
    requires { t < l.now.count }
    ensures { result ≡ any (self_in l.now) (listed l.now t) }
{
    (0..usize::from(l.counts[t])).any(|i| l.is_self(t, i))
}

// Whether a parent is listed as `self`.
pub fn inherits_self(l: &Parents) -> bool
    ensures { result ≡ lists_self l.now }
{
    (0..l.count).any(|t| lists_self(l, t))
}

// Whether type t lists no parent but `self`, which holds no type back (FORMAT 3.4).
fn lists_only_self(l: &Parents, t: usize) -> bool
    requires { t < l.now.count }
    ensures { result ≡ all (self_in l.now) (listed l.now t) }
{
    (0..usize::from(l.counts[t])).all(|i| l.is_self(t, i))
}

// Whether round one places a type.
pub fn first_places(l: &Parents) -> bool
    ensures { result ≡ not (null (placed l.now 1)) }
{
    (0..l.count).any(|t| lists_only_self(l, t))
}

// Whether type t is not placed, and each parent of it is a type that is.
fn is_free(l: &Parents, t: usize, out: u64) -> bool
    requires { t < l.now.count }
    ensures { result ≡ free_in l.now out t }
{
    if bitsets::has(out, t) {
        return false;
    }
    (0..usize::from(l.counts[t])).all(|i| {
        let place = l.place(t, i);
        place < l.count && bitsets::has(out, place)
    })
}

// The placed types, with those that are free when their turn comes. A type joins at once, and not at the end of a round: the set
// that remains is the same.
fn place_more(l: &Parents, from: u64) -> u64
    ensures { Passed l.now from result }
{
    let mut out = from;
    for t in 0..l.count {
        if is_free(l, t, out) {
            out = bitsets::with_one(out, t);
        }
    }
    out
}

// What all rounds place, where no placed type lists `self`.
pub fn place_all(l: &Parents) -> u64
    ensures { PlacedAll l.now result }
{
    let mut out: u64 = 0;
    let mut next = place_more(l, out);
    // No range: how many passes it takes until one places nothing more is not known beforehand.
    while next != out {
        out = next;
        next = place_more(l, out);
    }
    out
}
