// Refusal 9 by sets of classes: whether a type of the map is refused, from the map's catalogue.
#![tactic(auto)]

ghost use Rattle.std.specs.Prelude.{◌≡◌, ◌<◌};
ghost use Rattle.lists.specs.Lists.{any, all};
ghost use Rattle.bitsets.specs.Bitsets.{members};
ghost use Rattle.catalogue.specs.ByDom.{by_dom};
ghost use Rattle.item_refusal.specs.Tests.{same_word, takes, passes, passes_alone, is_virtual, same_virtual, behind, follow};
ghost use Rattle.item_refusal.specs.Tests.{same_marks, repeated, repeated_for, number_left, Decides};

use catalogue::Catalogue;

// The types whose last word is the second word of a type's name; none where the name has one word (FORMAT 4.2).
#[tactic(auto, unfolding(crate::specs::Tests::same_word))]
fn same_word(t: &Catalogue, d: usize) -> u64
    requires { d < 64 }
    ensures { result ≡ same_word t.now d }
{
    let w = (t.keys[d] % 256) as usize;
    if w == 0 {
        return 0;
    }
    let alone = t.firsts[w - 1] & t.seconds[0];
    alone | t.seconds[w]
}

// Whether a type is T.r for a type T, its owner, with a making of r (FORMAT 4.9). An owner from 64 on is none, here and in
// `is_repeated`: a place is tested so before it is an index, and an Option would be matched besides.
#[tactic(auto, unfolding(crate::specs::Tests::takes))]
fn takes_name(t: &Catalogue, d: usize) -> bool
    requires { d < 64 }
    ensures { result ≡ takes t.now d }
{
    let a = t.owners[d] as usize;
    a < 64 && (t.own[a] | t.above[a]) & same_word(t, d) != 0
}

// Whether one of the types does.
fn any_taken(t: &Catalogue, types: u64) -> bool
    ensures { result ≡ any (takes t.now) (members types) }
{
    bitsets::members(types).any(|d| takes_name(t, d))
}

// Whether a type passes a class of the set on (FORMAT 4.4).
#[tactic(auto, unfolding(crate::specs::Tests::passes))]
fn passes_on(t: &Catalogue, p: usize, classes: u64) -> bool
    requires { p < 64 }
    ensures { result ≡ passes t.now classes p }
{
    t.passed[p] & classes != 0
}

// Whether one of the types does.
fn any_passes(t: &Catalogue, types: u64, classes: u64) -> bool
    ensures { result ≡ any (passes t.now classes) (members types) }
{
    bitsets::members(types).any(|p| passes_on(t, p, classes))
}

// Whether p is a parent that passes a class of the set on, and the only one (FORMAT 4.4).
#[tactic(auto, unfolding(crate::specs::Tests::passes_alone))]
fn passes_alone(t: &Catalogue, parents: u64, p: usize, classes: u64) -> bool
    requires { p < 64 }
    ensures { result ≡ passes_alone t.now parents p classes }
{
    bitsets::has(parents, p)
        && passes_on(t, p, classes)
        && !any_passes(
            t,
            bitsets::without(parents, bitsets::with_one(0, p)),
            classes,
        )
}

// Whether all types of a set are virtual.
fn all_virtual(t: &Catalogue, types: u64) -> bool
    ensures { result ≡ all (is_virtual t.now) (members types) }
{
    bitsets::members(types).all(|c| t.is_virtual(c))
}

// Whether the type's making of its own class c is virtual as that of the classes is (FORMAT 4.6).
#[tactic(auto, unfolding(crate::specs::Tests::same_virtual))]
fn same_virtual(t: &Catalogue, a: usize, c: usize, classes: u64) -> bool
    requires { (a < 64) × (c < 64) }
    ensures { result ≡ same_virtual t.now a c classes }
{
    !t.is_virtual(a) || t.is_virtual(c) == all_virtual(t, classes)
}

// Of the last `left` bits of marks, how many are left behind the bits of `next`; none where they do not begin so.
#[tactic(auto, unfolding(crate::specs::Tests::behind))]
fn bits_behind(marks: u64, left: u64, next: u64, width: u64) -> Option<u64>
    ensures { number_left result ≡ behind marks left next width }
{
    if left >= 64 || left < width {
        return None;
    }
    let rest = left - width;
    let one: u64 = 1;
    let size = one << width;
    if (marks >> rest) % size == next % size {
        return Some(rest);
    }
    None
}

// The same behind the marks of the classes of a set in turn, by dom (FORMAT 4.4, 4.7).
#[tactic(auto, using(crate::specs::TestLaws::follow_next, crate::specs::TestLaws::follow_end))]
fn marks_behind(t: &Catalogue, marks: u64, left: u64, classes: u64) -> Option<u64>
    ensures { number_left result ≡ follow t.now marks left (by_dom t.now classes) }
{
    let mut rest = left;
    let mut places = classes;
    while places != 0 {
        let e = t.first_by_dom(places);
        let next = t.marks_of(e);
        rest = bits_behind(marks, rest, next.bits, next.width)?;
        places = bitsets::without(places, bitsets::with_one(0, e));
    }
    Some(rest)
}

// Whether the marks of c are those of the classes in turn, that of one word first (FORMAT 4.4, 4.7). They stand as bits,
// and those of classes in turn in several numbers, so that no derived equality compares them.
#[tactic(auto, using(crate::specs::TestLaws::follow_lost), unfolding(crate::specs::Tests::same_marks))]
fn same_marks(t: &Catalogue, c: usize, classes: u64) -> bool
    requires { c < 64 }
    ensures { result ≡ same_marks t.now c classes }
{
    let marks = t.marks_of(c);
    let alone = t.seconds[0];
    match marks_behind(t, marks.bits, marks.width, classes & alone) {
        None => false,
        Some(rest) => matches!(
            marks_behind(t, marks.bits, rest, bitsets::without(classes, alone)),
            Some(0)
        ),
    }
}

// Whether the type's making of its own class c stands again as the inherited one: c is P.r, and P is the only parent that
// passes r on; virtual and marks are equal (FORMAT 4.9).
#[tactic(auto, unfolding(crate::specs::Tests::repeated))]
fn is_repeated(t: &Catalogue, a: usize, c: usize) -> bool
    requires { (a < 64) × (c < 64) }
    ensures { result ≡ repeated t.now a c }
{
    let p = t.owners[c] as usize;
    if p >= 64 {
        return false;
    }
    let word = same_word(t, c);
    let classes = t.above[a] & word;
    if classes == 0 {
        return false;
    }
    passes_alone(t, t.parents[a], p, word)
        && same_virtual(t, a, c, classes)
        && same_marks(t, c, classes)
}

// Whether one of its own classes among the pairs does.
fn repeated_for(t: &Catalogue, a: usize, pairs: u64) -> bool
    requires { a < 64 }
    ensures { result ≡ repeated_for t.now pairs a }
{
    bitsets::members(t.own[a] & pairs).any(|c| is_repeated(t, a, c))
}

// Whether one of the types has such a class.
fn any_repeated(t: &Catalogue, types: u64, pairs: u64) -> bool
    ensures { result ≡ any (repeated_for t.now pairs) (members types) }
{
    bitsets::members(types).any(|a| repeated_for(t, a, pairs))
}

// Whether a type of the map is refused (FORMAT 4.9); `lost` says whether a class is undeclared or no resource, or an own class
// stands twice, which is seen while the catalogue is made, and is asked here too, so that the answer is the whole of refusal 9. A
// name T.r and a class P.r have two words: without such types nothing is left to ask.
#[tactic(auto, using(crate::specs::DecideLaws::decides, crate::specs::DecideLaws::refused_none))]
pub fn is_refused(t: &Catalogue, lost: bool) -> bool
    ensures { Decides t.now lost result }
{
    if lost {
        return true;
    }
    let types = bitsets::first(t.count as u64);
    let pairs = bitsets::without(types, t.seconds[0]);
    if pairs == 0 {
        return false;
    }
    any_taken(t, pairs) || any_repeated(t, types, pairs)
}
