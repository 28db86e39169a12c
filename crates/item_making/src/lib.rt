// The items of a schedule, out of the catalogue, added to a pen: a synthesized resource (FORMAT 6.2) or an extension line (FORMAT 6.3).
// `add_item` is the one step by which a schedule grows.
#![tactic(auto)]

ghost use Rattle.std.specs.Prelude.{true, [], ◌∷◌, ◌++◌, ◌≡◌, ◌+◌, ◌*◌, ◌%◌, ◌≤◌, ◌<◌, length};
ghost use Rattle.definitions.specs.Bits.{to_bits};
ghost use Rattle.definitions.specs.LegalSchedule.{most_marks};
ghost use Rattle.definitions.specs.Packing.{parent_bits};
ghost use Rattle.catalogue.specs.Layout.{key_at, head_at, mark_count, extension_count_at};
ghost use Rattle.bitsets.specs.Bitsets.{members};
ghost use Rattle.item_pen.specs.Pen.{field_bits, Holds, RoomFor, Adds};
ghost use Rattle.item_pen.specs.SoFar.{Grows};
ghost use Rattle.item_fields.specs.Fields.{line_bits};
ghost use Rattle.item_making.specs.Making.{each_of, each_by, classes_of, marks_in, Recorded, added, record_bits, first_bits, marks_bits, Gathers};
ghost use Rattle.item_making.specs.Making.{Listable, item_in, all_marks_bits, GathersAll, parents_of, made_bits, others_bits, behind_bits, tail_bits, Alone};

use catalogue::Catalogue;
use item_pen::{Field, ListingPen};

// What is made for a type and a word.
#[derive(Clone, Copy)]
pub struct Making {
    pub word: u64,
    // The set of the extension records that add parents.
    pub records: u64,
    // The set of the types whose names begin the first parents.
    pub firsts: u64,
    // The set of the classes.
    pub classes: u64,
    // Whether a first parent is P.r, for a type P, or the type itself. One place asks it, and only so: an enum of two cases would
    // be the same test.
    pub inherited: bool,
}

// An item: what is made, or the extension line of a word.
#[derive(Clone, Copy)]
pub enum Item {
    Synthesized(Making),
    Extension(u64),
}

// How many marks some classes have, and, in the last bit of a number, whether all are virtual: heads and items have it as a bit,
// so that a bool would be made of the one and made into the other.
#[derive(Clone, Copy)]
struct Gathered {
    marks: u64,
    flag: u64,
}

// How many types a set has.
#[tactic(auto, using(crate::specs::Walks::members_long, crate::specs::Walks::members_most))]
fn count_of(set: u64) -> u64
    ensures { (result ≡ length (members set)) × (result ≤ 64) }
{
    u64::count_ones(set) as u64
}

// How many parents extension records add (FORMAT 4.5).
#[tactic(auto, using(crate::specs::MakingLaws::added_next, crate::specs::MakingLaws::added_none, crate::specs::MakingLaws::added_most, crate::specs::MakingLaws::recorded_rest))]
fn count_added(t: &Catalogue, records: u64) -> u64
    requires { Recorded t.now records }
    ensures { (result ≡ length (added t.now records)) × (result ≤ 512) }
{
    let mut n: u64 = 0;
    for e in bitsets::members(records) {
        n += t.extensions[e].count;
    }
    n
}

// With the classes of a set (FORMAT 4.6, 4.7).
#[tactic(auto, using(crate::specs::MakingLaws::marks_next, crate::specs::MakingLaws::marks_none, crate::specs::MakingLaws::flag_next, crate::specs::MakingLaws::flag_none, crate::specs::MakingLaws::marks_most))]
fn gather(t: &Catalogue, g: Gathered, set: u64) -> Gathered
    requires { g.marks ≤ most_marks }
    ensures { Gathers t.now g set result }
{
    let mut marks = g.marks;
    let mut flag = g.flag;
    for c in bitsets::members(set) {
        marks += t.marks_of(c).count;
        flag &= t.heads[c] >> 5;
    }
    Gathered { marks, flag }
}

// A first parent: the class of an own making, P.r of an inherited one (FORMAT 4.3, 4.4).
#[tactic(auto, unfolding(crate::specs::Making::first_bits, crate::specs::Making::first_in, crate::specs::Making::name_in))]
fn first_field(t: &Catalogue, m: Making, p: usize) -> Field
    requires { p < 64 }
    ensures { Holds result (length (first_bits t.now m p)) (first_bits t.now m p) × (result.width ≤ 26) }
{
    let key = t.keys[p];
    if m.inherited {
        return item_fields::passing_field(key, m.word);
    }
    item_fields::parent_field(key)
}

// The head and the first parents, several written together.
fn add_firsts(pen: &mut ListingPen<'_>, t: &Catalogue, m: Making, head: Field)
    requires { RoomFor pen.old 0 (field_bits head ++ each_of (first_bits t.now m) m.firsts) }
    ensures { Adds pen.old pen.new 0 (field_bits head ++ each_of (first_bits t.now m) m.firsts) }
{
    let mut held = head;
    for p in bitsets::members(m.firsts) {
        let f = first_field(t, m, p);
        pen.make_room(held, f);
        held = item_pen::take_in(held, f);
    }
    pen.add(held);
}

// The parents of an extension record (FORMAT 4.5).
fn add_record(pen: &mut ListingPen<'_>, t: &Catalogue, e: usize)
    requires e_bound { (e < 32) × (extension_count_at t.now e ≤ 8) }
    requires room_for { RoomFor pen.old 0 (record_bits t.now e) }
    ensures { Adds pen.old pen.new 0 (record_bits t.now e) }
{
    let count = t.extensions[e].count;
    for j in 0..count as usize {
        let key = t.extensions[e].parents[j];
        pen.add(item_fields::parent_field(key));
    }
}

// The parents of some records.
fn add_records(pen: &mut ListingPen<'_>, t: &Catalogue, records: u64)
    requires recorded { Recorded t.now records }
    requires room_for { RoomFor pen.old 0 (each_of (record_bits t.now) records) }
    ensures { Adds pen.old pen.new 0 (each_of (record_bits t.now) records) }
{
    for e in bitsets::members(records) {
        add_record(pen, t, e);
    }
}

// The parent `resource` (FORMAT 4.5).
fn resource_field(t: &Catalogue) -> Field
    ensures { Holds result 10 (parent_bits (t.now.resource ∷ [])) }
{
    item_pen::join(item_pen::number(2, 1), item_pen::number(8, t.resource))
}

// The parents behind the first ones: `resource`, those of the extension (FORMAT 4.5).
fn add_others(pen: &mut ListingPen<'_>, t: &Catalogue, records: u64)
    requires recorded { Recorded t.now records }
    requires room_for { RoomFor pen.old 0 (others_bits t.now records) }
    ensures { Adds pen.old pen.new 0 (others_bits t.now records) }
{
    pen.add(resource_field(t));
    add_records(pen, t, records);
}

// The marks of a class, up to 63 bits: more than 56 in two parts.
fn add_class(pen: &mut ListingPen<'_>, t: &Catalogue, c: usize)
    requires c_bound { c < 64 }
    requires room_for { RoomFor pen.old 0 (marks_bits t.now c) }
    ensures { Adds pen.old pen.new 0 (marks_bits t.now c) }
{
    let marks = t.marks_of(c);
    let width = marks.width as usize;
    if width <= 56 {
        pen.add(item_pen::number(width, marks.bits));
        return;
    }
    pen.add(item_pen::number(width - 32, marks.bits >> 32));
    pen.add(item_pen::number(32, marks.bits));
}

// The marks of the classes of a set, the first by dom each time.
fn add_by_dom(pen: &mut ListingPen<'_>, t: &Catalogue, set: u64)
    requires { RoomFor pen.old 0 (each_by t.now (marks_bits t.now) set) }
    ensures { Adds pen.old pen.new 0 (each_by t.now (marks_bits t.now) set) }
{
    let mut left = set;
    while left != 0 {
        let c = t.first_by_dom(left);
        add_class(pen, t, c);
        left = bitsets::without(left, bitsets::with_one(0, c));
    }
}

// The marks of the classes of a set, by dom (FORMAT 4.4, 4.7). Without hyphens their places are in that order.
fn add_classes(pen: &mut ListingPen<'_>, t: &Catalogue, set: u64)
    requires { RoomFor pen.old 0 (each_by t.now (marks_bits t.now) set) }
    ensures { Adds pen.old pen.new 0 (each_by t.now (marks_bits t.now) set) }
{
    if t.hyphens {
        add_by_dom(pen, t, set);
        return;
    }
    for c in bitsets::members(set) {
        add_class(pen, t, c);
    }
}

// The number of marks, and the marks of the classes, no dom first (FORMAT 4.7, 6.2).
fn add_marks(pen: &mut ListingPen<'_>, t: &Catalogue, marks: u64, classes: u64)
    requires { RoomFor pen.old 0 (all_marks_bits t.now marks classes) }
    ensures { Adds pen.old pen.new 0 (all_marks_bits t.now marks classes) }
{
    let alone = classes & t.seconds[0];
    pen.add(item_pen::number(9, marks));
    add_classes(pen, t, alone);
    add_classes(pen, t, classes ^ alone);
}

// What the type and its classes give: how many marks, and whether all are virtual (FORMAT 4.6, 4.7).
#[tactic(auto, using(crate::specs::MakingLaws::marks_both, crate::specs::MakingLaws::flag_both))]
fn gather_all(t: &Catalogue, a: usize, classes: u64) -> Gathered
    requires { a < 64 }
    ensures { GathersAll t.now a classes result }
{
    let alone = classes & t.seconds[0];
    let none = Gathered {
        marks: 0,
        flag: t.heads[a] >> 5,
    };
    let some = gather(t, none, alone);
    gather(t, some, classes ^ alone)
}

// How many parents a making has.
#[tactic(auto, using(crate::specs::MakingLaws::parents_count))]
fn count_parents(t: &Catalogue, m: Making) -> u64
    requires { Recorded t.now m.records }
    ensures { result ≡ length (parents_of t.now m) }
{
    count_of(m.firsts) + 1 + count_added(t, m.records)
}

// `resource`, and the number of marks of a class.
fn tail_start(t: &Catalogue, c: usize) -> Field
    requires { c < 64 }
    ensures { Holds result 19 (parent_bits (t.now.resource ∷ []) ++ to_bits 9 (mark_count t.now c)) }
{
    let count = t.marks_of(c).count;
    item_pen::join(resource_field(t), item_pen::number(9, count))
}

// What stands behind the first parents where a class is the only one and no extension adds parents: `resource`, the number of its
// marks, the marks (FORMAT 6.2). More than 56 bits go in two parts.
fn add_tail(pen: &mut ListingPen<'_>, t: &Catalogue, c: usize)
    requires c_bound { c < 64 }
    requires room_for { RoomFor pen.old 0 (tail_bits t.now c) }
    ensures { Adds pen.old pen.new 0 (tail_bits t.now c) }
{
    let start = tail_start(t, c);
    let marks = t.marks_of(c);
    let width = marks.width as usize;
    if width <= 37 {
        let f = item_pen::join(start, item_pen::number(width, marks.bits));
        pen.add(f);
        return;
    }
    let f = item_pen::join(start, item_pen::number(width - 32, marks.bits >> 32));
    pen.add(f);
    pen.add(item_pen::number(32, marks.bits));
}

// Whether a making has one class, and no extension adds parents to it.
fn is_alone(m: Making) -> bool
    ensures { result ≡ true → Alone m }
{
    if m.records != 0 {
        return false;
    }
    if m.classes == 0 {
        return false;
    }
    bitsets::rest(m.classes) == 0
}

// What stands behind the first parents: the others, the number of marks, the marks.
fn add_behind(pen: &mut ListingPen<'_>, t: &Catalogue, m: Making, marks: u64)
    requires recorded { Recorded t.now m.records × (marks ≡ marks_in t.now (classes_of t.now m.classes)) }
    requires room_for { RoomFor pen.old 0 (behind_bits t.now m marks) }
    ensures { Adds pen.old pen.new 0 (behind_bits t.now m marks) }
{
    if is_alone(m) {
        add_tail(pen, t, bitsets::lowest(m.classes));
        return;
    }
    add_others(pen, t, m.records);
    add_marks(pen, t, marks, m.classes);
}

// A synthesized resource, field by field.
fn add_resource(pen: &mut ListingPen<'_>, t: &Catalogue, a: usize, m: Making)
    requires a_bound { (a < 64) × Recorded t.now m.records }
    requires room_for { RoomFor pen.old 1 (made_bits t.now a m) }
    ensures { Adds pen.old pen.new 1 (made_bits t.now a m) }
{
    let g = gather_all(t, a, m.classes);
    let parents = count_parents(t, m);
    let head = item_fields::head_field(t.keys[a], m.word, g.flag, parents);
    pen.count_item();
    add_firsts(pen, t, m, head);
    add_behind(pen, t, m, g.marks);
}

// How many bits a first parent has.
fn first_width(t: &Catalogue, m: Making, p: usize) -> usize
    requires { p < 64 }
    ensures { (result ≡ length (first_bits t.now m p)) × (result ≤ 26) }
{
    let f = first_field(t, m, p);
    f.width
}

// How many bits the first parents have.
#[tactic(auto, using(crate::specs::MakingLaws::long_next, crate::specs::MakingLaws::long_none, crate::specs::MakingLaws::firsts_most))]
fn firsts_width(t: &Catalogue, m: Making) -> usize
    ensures { (result ≡ length (each_of (first_bits t.now m) m.firsts)) × (result ≤ 1664) }
{
    let mut n: usize = 0;
    for p in bitsets::members(m.firsts) {
        n += first_width(t, m, p);
    }
    n
}

// How many bits the marks of the classes of a set have.
#[tactic(auto, using(crate::specs::MakingLaws::mark_bits_next, crate::specs::MakingLaws::long_none, crate::specs::MakingLaws::mark_bits_most))]
fn marks_width(t: &Catalogue, set: u64) -> usize
    ensures { (result ≡ length (each_of (marks_bits t.now) set)) × (result ≤ 9 * most_marks) }
{
    let mut n: usize = 0;
    for c in bitsets::members(set) {
        n += t.mark_width(c);
    }
    n
}

// How many bits a synthesized resource has to which no extension adds parents: 34, the type's name, the first parents, the marks.
#[tactic(auto, using(crate::specs::MakingLaws::made_long))]
fn width_of(t: &Catalogue, a: usize, m: Making) -> usize
    requires { (a < 64) × (m.records ≡ 0) }
    ensures { result ≡ length (made_bits t.now a m) }
{
    let name = item_fields::name_field(t.keys[a]);
    let alone = m.classes & t.seconds[0];
    let marks = marks_width(t, alone) + marks_width(t, m.classes ^ alone);
    34 + name.width + firsts_width(t, m) + marks
}

// A synthesized resource T.r, after the Rust's function of that name (FORMAT 4, 6.2). With the pen up its bits are counted and
// not made.
fn create_synthetic_resource(pen: &mut ListingPen<'_>, t: &Catalogue, a: usize, m: Making)
    requires a_bound { (a < 64) × Recorded t.now m.records }
    requires room_for { RoomFor pen.old 1 (made_bits t.now a m) }
    ensures { Adds pen.old pen.new 1 (made_bits t.now a m) }
{
    if !pen.down && m.records == 0 {
        pen.count_item();
        pen.pass_over(width_of(t, a, m));
        return;
    }
    add_resource(pen, t, a, m);
}

// The extension line of a type and a word (FORMAT 4.8, 6.3).
fn extension_line(pen: &mut ListingPen<'_>, t: &Catalogue, a: usize, word: u64)
    requires a_bound { a < 64 }
    requires room_for { RoomFor pen.old 1 (line_bits (key_at t.now a) (head_at t.now a) word) }
    ensures { Adds pen.old pen.new 1 (line_bits (key_at t.now a) (head_at t.now a) word) }
{
    pen.count_item();
    pen.add(item_fields::line_field(t.keys[a], t.heads[a], word));
}

// One item more: whatever schedule stood so far, it stands with this item behind it, and the pen's number is that of its bits (FORMAT
// 6.4). Each item of a schedule is added here. In line, since a caller knows which of the two its item is.
#[inline(always)]
pub fn add_item(pen: &mut ListingPen<'_>, t: &Catalogue, a: usize, item: Item)
    requires a_bound { (a < 64) × Listable t.now item }
    requires room_for { RoomFor pen.old 1 (item_in t.now a item) }
    ensures { Grows pen.old pen.new (item_in t.now a item ∷ []) }
{
    match item {
        Item::Synthesized(m) => create_synthetic_resource(pen, t, a, m),
        Item::Extension(word) => extension_line(pen, t, a, word),
    }
}
