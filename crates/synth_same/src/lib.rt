// Whether two makings of one type and one word are identical (FORMAT 5.1), without either being made: name, word, `resource` and
// the parents of an extension are theirs both, so that first parents, flag and marks decide.
#![tactic(auto)]

ghost use Rattle.std.specs.Prelude.{false, ◌≡◌, ◌<◌, eqb, length, get_or};
ghost use Rattle.lists.specs.Lists.{same_list};
ghost use Rattle.rows.specs.Rows.{has};
ghost use Rattle.rows.specs.Lists.{below};
ghost use Rattle.bitsets.specs.Bitsets.{members};
ghost use Rattle.catalogue.specs.Layout.{head_at};
ghost use Rattle.catalogue.specs.Catalogue.{virtual_head};
ghost use Rattle.synth_same.specs.Same.{class_of, same_firsts, real_at, virtual_in, bits_in, SameMarks, SameVirtual, SameMaking};

use catalogue::Catalogue;
use rows::Row;
use synth_classes::{Doms, Origin, Site};

// Whether the rows have the same doms.
fn same_doms(d: Row, e: Row) -> bool
    ensures { result ≡ same_list eqb (below (has d) 201) (below (has e) 201) }
{
    Doms::of(d).eq(Doms::of(e))
}

// Whether the class of a dom and r is P.r for the type P at a place: the dom is the word that P is named. The key of a name of
// one word is that word times 256, so that one comparison does, and no name is made of the key.
fn is_class(t: &Catalogue, dom: u8, place: usize) -> bool
    requires { place < 64 }
    ensures { result ≡ class_of t.now dom place }
{
    dom != 0 && t.keys[place] == (dom - 1) as u64 * 256
}

// Whether the classes of the doms are P.r for each of the types P in turn. No zip: it ends with the shorter of the two, and
// which of them that was would be asked behind it.
fn same_classes(t: &Catalogue, doms: Row, types: u64) -> bool
    ensures { result ≡ same_list (class_of t.now) (below (has doms) 201) (members types) }
{
    let mut places = bitsets::members(types);
    for dom in Doms::of(doms) {
        match places.next() {
            Some(place) => {
                if !is_class(t, dom, place) {
                    return false;
                }
            }
            None => return false,
        }
    }
    places.next().is_none()
}

// Whether the first parents of two makings are the same: those of an own one, which comes from no parent, are the classes of its
// doms (FORMAT 4.3), those of an inherited one P.r for each type P that it comes from (FORMAT 4.4).
#[tactic(auto, unfolding(crate::specs::Same::same_firsts))]
fn same_firsts(t: &Catalogue, a: Origin, b: Origin) -> bool
    ensures { result ≡ same_firsts t.now a.doms a.parents b.doms b.parents }
{
    let types = bitsets::first(t.count as u64);
    match (a.parents & types, b.parents & types) {
        (0, 0) => same_doms(a.doms, b.doms),
        (0, from) => same_classes(t, a.doms, from),
        (from, 0) => same_classes(t, b.doms, from),
        (p, q) => p == q,
    }
}

// Whether the class of a site's word and a dom is declared and not virtual.
#[tactic(auto, using(crate::specs::SameLaws::real_some, crate::specs::SameLaws::real_none))]
fn is_real(t: &Catalogue, site: Site, dom: u8) -> bool
    ensures { result ≡ real_at t.now site.word dom }
{
    synth_classes::class_place(t, dom as usize, site.word).is_some_and(|place| !t.is_virtual(place))
}

// Whether all classes are virtual (FORMAT 4.6).
fn all_virtual(t: &Catalogue, site: Site, doms: Row) -> bool
    ensures { result ≡ virtual_in t.now doms site.word }
{
    !Doms::of(doms).any(|dom| is_real(t, site, dom))
}

// How many bits the marks of all classes have (FORMAT 4.7).
fn marks_width(t: &Catalogue, site: Site, doms: Row) -> usize
    ensures { result ≡ length (bits_in t.now doms site.word) }
{
    let mut n = 0;
    for dom in Doms::of(doms) {
        if let Some(place) = synth_classes::class_place(t, dom as usize, site.word) {
            n += t.mark_width(place);
        }
    }
    n
}

// A bit of the marks of all classes, which stand in turn.
fn mark_bit(t: &Catalogue, site: Site, doms: Row, i: usize) -> bool
    ensures { result ≡ get_or (bits_in t.now doms site.word) i false }
{
    let mut left = i;
    for dom in Doms::of(doms) {
        if let Some(place) = synth_classes::class_place(t, dom as usize, site.word) {
            let marks = t.marks_of(place);
            let width = marks.width as usize;
            if left < width {
                return bitsets::has(marks.bits, width - 1 - left);
            }
            left -= width;
        }
    }
    false
}

// Whether the marks of two lists of classes are the same (FORMAT 4.7): no mark's bits begin with another's. They are compared as
// bits: those of several classes stand in several numbers, so that no derived equality compares them.
fn same_marks(t: &Catalogue, site: Site, d: Row, e: Row) -> bool
    ensures { SameMarks t.now site.word d e result }
{
    let n = marks_width(t, site, d);
    if n != marks_width(t, site, e) {
        return false;
    }
    (0..n).all(|i| mark_bit(t, site, d, i) == mark_bit(t, site, e, i))
}

// Whether both are virtual or neither is (FORMAT 4.6).
fn same_virtual(t: &Catalogue, site: Site, d: Row, e: Row) -> bool
    ensures { SameVirtual t.now site.place site.word d e result }
{
    !t.is_virtual(site.place) || all_virtual(t, site, d) == all_virtual(t, site, e)
}

// Most makings differ in their first parents, and then nothing else is looked up.
#[tactic(auto, using(crate::specs::SameLaws::firsts_unlike, crate::specs::SameLaws::flags_unlike, crate::specs::SameLaws::marks_decide))]
pub fn is_same(t: &Catalogue, site: Site, a: Origin, b: Origin) -> bool
    ensures { SameMaking t.now site a b result }
{
    same_firsts(t, a, b)
        && same_virtual(t, site, a.doms, b.doms)
        && same_marks(t, site, a.doms, b.doms)
}
