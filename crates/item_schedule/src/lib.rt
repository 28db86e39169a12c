// The schedule of a map, out of its catalogue and its order. One function counts its bits and writes them (FORMAT 6.1).
#![tactic(auto)]

ghost use Rattle.std.specs.Prelude.{[]};
ghost use Rattle.item_pen.specs.Pen.{RoomFor};
ghost use Rattle.item_pen.specs.SoFar.{SoFar};
ghost use Rattle.item_schedule.specs.Schedule.{front_bits, Passable, Passed, Schedulable, ListsSchedule};

use answers::{Answer, Refusal};
use catalogue::Catalogue;
use item_pen::ListingPen;
use order_rounds::Order;

// What a pass comes to: how many items there are, and how many bits.
#[derive(Clone, Copy)]
struct Pass {
    items: usize,
    bits: usize,
}

// The number of types, their names in order and the number of items, which stand in front of the items: behind them the schedule so
// far has no item.
fn add_front(pen: &mut ListingPen<'_>, t: &Catalogue, order: &Order, items: usize)
    requires { RoomFor pen.old 0 (front_bits t.now order.now items) }
    ensures { SoFar pen.old (front_bits t.now order.now items) [] pen.new }
{
    let number = order.types.count as u64;
    pen.add_once(item_pen::number(7, number));
    order_listing::add_names(pen, t, order);
    pen.add_once(item_pen::number(16, items as u64));
}

// Counts the schedule, or writes it from the first bit on: what stands in front of the items, then item by item. `items` is their
// number. `down` is a bool, as `ListingPen` has it.
fn add_all(
    buf: &mut [u8],
    down: bool,
    t: &Catalogue,
    words: &[u64; 64],
    order: &Order,
    items: usize,
) -> Pass
    requires { Passable down buf.old t.now words.now order.now items }
    ensures { Passed down buf.old buf.new t.now order.now items result }
{
    let mut pen = ListingPen::new(buf, down);
    add_front(&mut pen, t, order, items);
    item_writer::add_items(&mut pen, t, words);
    Pass {
        items: pen.pen.items,
        bits: pen.pen.at,
    }
}

// Writes the schedule, and answers its size: acceptance. Nothing is touched where the listing is too short: 10, with the size
// that is needed (FORMAT 7.4).
pub fn write_schedule(listing: &mut [u8], t: &Catalogue, order: &Order) -> Answer
    requires { Schedulable t.now order.now }
    ensures { ListsSchedule t.now order.now listing.old listing.new result }
{
    let mut words = [0u64; 64];
    item_writer::fill_words(t, &mut words);
    let counted = add_all(listing, false, t, &words, order, 0);
    let size = (counted.bits + 7) / 8;
    if listing.len() < size {
        return Err(Refusal::ShortListing(size));
    }
    add_all(listing, true, t, &words, order, counted.items);
    Ok(size)
}
