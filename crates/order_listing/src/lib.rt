// The order-only call's listing, out of the names in the catalogue and the order.
#![tactic(auto)]

ghost use Rattle.std.specs.Prelude.{◌≡◌, ◌*◌, ◌≤◌, length};
ghost use Rattle.definitions.specs.Packing.{name_bits};
ghost use Rattle.catalogue.specs.Catalogue.{name_of_key};
ghost use Rattle.bits.specs.Writing.{Wrote};
ghost use Rattle.item_pen.specs.Pen.{RoomFor, Adds};
ghost use Rattle.order_listing.specs.Listing.{Listing};
ghost use Rattle.order_listing.specs.Order.{names_bits, order_in};

use answers::{Answer, Refusal};
use catalogue::Catalogue;
use item_pen::ListingPen;
use order_rounds::Order;

// How many bits a name has (FORMAT 2.5).
#[tactic(auto, using(crate::proofs::ListingLaws::alone_long, crate::proofs::ListingLaws::paired_long))]
fn name_size(key: u64) -> usize
    ensures { (result ≡ length (name_bits (name_of_key key))) × (result ≤ 17) }
{
    if key % 256 == 0 {
        return 9;
    }
    17
}

// How many the names of the types have.
#[tactic(auto, using(crate::proofs::ListingLaws::size_none, crate::proofs::ListingLaws::size_more))]
fn names_size(t: &Catalogue, order: &Order) -> usize
    ensures { (result ≡ length (names_bits t.now order.now)) × (result ≤ 17 * order.now.types.count) }
{
    let mut bits: usize = 0;
    for &a in order.as_slice() {
        bits += name_size(t.keys[a]);
    }
    bits
}

// The names of the types, in order.
pub fn add_names(pen: &mut ListingPen<'_>, t: &Catalogue, order: &Order)
    requires { RoomFor pen.old 0 (names_bits t.now order.now) }
    ensures { Adds pen.old pen.new 0 (names_bits t.now order.now) }
{
    for &a in order.as_slice() {
        pen.add(item_fields::name_field(t.keys[a]));
    }
}

// How many types there are, and their names in order, from the first bit on (FORMAT 6.5).
fn write_bits(buf: &mut [u8], t: &Catalogue, order: &Order) -> usize
    requires { length (order_in t.now order.now) ≤ 8 * length buf.old }
    ensures { Wrote buf.old buf.new 0 result (order_in t.now order.now) }
{
    let count = order.types.count as u64;
    let mut pen = ListingPen::new(buf, true);
    pen.add_once(item_pen::number(7, count));
    add_names(&mut pen, t, order);
    pen.pen.at
}

// Writes the order, and answers its size: acceptance. Nothing is touched where the listing is too short: 10, with the size that
// is needed (FORMAT 7.4).
pub fn write_order(listing: &mut [u8], t: &Catalogue, order: &Order) -> Answer
    ensures { Listing listing.old listing.new (order_in t.now order.now) result }
{
    let size = (names_size(t, order) + 14) / 8;
    if listing.len() < size {
        return Err(Refusal::ShortListing(size));
    }
    write_bits(listing, t, order);
    Ok(size)
}
