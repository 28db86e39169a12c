// The order of the types of a map, round by round, over the sets of their parents. A type is its place in name order.
#![tactic(auto)]

ghost use Rattle.std.specs.Prelude.{◌++◌, ◌≡◌, ◌+◌, ◌≤◌, ◌<◌, length};
ghost use Rattle.bounded.specs.Items.{items_of};
ghost use Rattle.bitsets.specs.Bitsets.{members};
ghost use Rattle.item_spread.specs.Spread.{United};
ghost use Rattle.order_rounds.specs.Rounds.{all_listed_in, AllPlaced, ReadyIn, ChildAdded, Childless, ChildrenPut, AnySets, Placed};
ghost use Rattle.order_rounds.specs.Organized.{Asked, Organized};

mod sequence;

use catalogue::Catalogue;
pub use sequence::Order;

// Whether each parent is placed. The scan ends where one is not (01: 'the first parent not placed'). It begins with the type
// that was placed last, since a parent is rarely placed many rounds before. 01 names the labelled, nested loop.
fn all_placed(parents: u64, placed: &[usize]) -> bool
    ensures { result ≡ all_listed_in parents placed.now }
{
    let mut left = parents;
    'parents: while left != 0 {
        let place = bitsets::lowest(left);
        let mut j = placed.len();
        loop {
            if j == 0 {
                break 'parents;
            }
            j -= 1;
            if placed[j] == place {
                break;
            }
        }
        left = bitsets::rest(left);
    }
    left == 0
}

// Those of the types that are ready now; each has a parent in `last`, the set that the last round placed. The other parents are
// looked for among those placed.
fn ready_in(t: &Catalogue, types: u64, last: u64, placed: &[usize]) -> u64
    requires { AllPlaced last placed.now }
    ensures { ReadyIn t.now types placed.now result }
{
    let mut out: u64 = 0;
    for a in bitsets::members(types) {
        let others = bitsets::without(t.parents[a], last);
        if all_placed(others, placed) {
            out = bitsets::with_one(out, a);
        }
    }
    out
}

// One child more of each parent of a set. `item_writer::fill_word` has the same loop, over a slice that may be longer.
fn add_child(children: &mut [u64; 64], parents: u64, a: usize)
    requires { a < 64 }
    ensures { ChildAdded children.old children.new parents a }
{
    for p in bitsets::members(parents) {
        children[p] = bitsets::with_one(children[p], a);
    }
}

// The children of each type. The answer has the types without parents, which round one places.
fn put_children(t: &Catalogue, count: usize, children: &mut [u64; 64]) -> u64
    requires count_bound { count ≤ 64 }
    requires childless { Childless children.old }
    ensures { ChildrenPut t.now count children.new result }
{
    let mut out: u64 = 0;
    for a in 0..count {
        let parents = t.parents[a];
        add_child(children, parents, a);
        if parents == 0 {
            out = bitsets::with_one(out, a);
        }
    }
    out
}

// The types of a set behind those placed, by name. The answer has their children.
fn append(order: &mut Order, types: u64, children: &[u64; 64]) -> u64
    requires { order.old.types.count + length (members types) ≤ 64 }
    ensures placed { items_of order.new.types ≡ items_of order.old.types ++ members types }
    ensures near { United types children.now result }
{
    let mut near: u64 = 0;
    for a in bitsets::members(types) {
        order.push(a);
        near |= children[a];
    }
    near
}

// What all rounds place: another round is made while one placed a type (FORMAT 3.4). Only a type with a parent in the last round
// can be ready anew.
pub fn place_all(t: &Catalogue, count: usize, order: &mut Order)
    requires { AnySets t.now count }
    ensures { Placed t.now count order.new }
{
    order.clear();
    let mut children = [0u64; 64];
    let mut ready = put_children(t, count, &mut children);
    let mut waiting = bitsets::first(count as u64);
    // No range counts the rounds: each is made because the one before it placed a type, and how many there are shows at the last.
    while ready != 0 {
        let near = append(order, ready, &children);
        waiting = bitsets::without(waiting, ready);
        ready = ready_in(t, waiting & near, ready, order.as_slice());
    }
}

// The order of the types, if there is one. `whole` says that each listed parent is declared, and none is `self`: no choice of
// the caller, but what put_parents found, so an enum would be made of it only to be asked here.
pub fn organize_type_map(t: &Catalogue, count: usize, whole: bool, order: &mut Order) -> bool
    requires { Asked t.now count whole }
    ensures { Organized t.now count whole order.new result }
{
    if !whole {
        return false;
    }
    place_all(t, count, order);
    order.types.count == count
}
