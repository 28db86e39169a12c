// What the catalogue has that is made of what stands in it already: the sets that go down the order, and the types that have an
// extension record.
#![tactic(auto)]

ghost use Rattle.std.specs.Prelude.{◌&&◌, ◌||◌, ◌≡◌, ◌<◌};
ghost use Rattle.rows.specs.Rows.{has_bit};
ghost use Rattle.item_spread.specs.Spread.{Ordered};
ghost use Rattle.item_sets.specs.Sets.{SpreadPut, RecordKeysFit, ExtendedIs};

use catalogue::Catalogue;
use item_classes::Classes;
use order_rounds::Order;

// What each type has from above and what it passes on. In the order each parent stands before its children, so what it passes
// on is ready when a child's is made.
pub fn spread(t: &mut Catalogue, given: &[u64; 64], order: &Order)
    requires ordered { Ordered order.now.types.items order.now.types.count t.old.parents }
    ensures { SpreadPut order.now.types.items order.now.types.count given.now t.old t.new }
{
    for &a in order.as_slice() {
        let parents = t.parents[a];
        let above = item_spread::united(parents, &t.passed);
        t.above[a] = above;
        t.passed[a] = given[a] | above;
    }
}

// Whether a class is lost or stands twice, so far and in the type a: an own class, or a given one where the type has a child.
pub fn is_lost(so_far: bool, c: Classes, childed: u64, a: usize) -> bool
    requires { a < 64 }
    ensures { result ≡ (so_far || (c.wrong || (has_bit childed a && c.missing))) }
{
    let has_child = bitsets::has(childed, a);
    so_far | (c.wrong | (has_child & c.missing))
}

// The types that have one of the extension records.
#[tactic(auto, using(crate::specs::SetsLaws::extended_none, crate::specs::SetsLaws::extended_more))]
pub fn extended_by(t: &Catalogue, count: usize) -> u64
    requires { RecordKeysFit t.now count }
    ensures { ExtendedIs t.now count result }
{
    let mut out: u64 = 0;
    for e in 0..count {
        out |= t.type_of(t.extensions[e].type_key());
    }
    out
}
