// What a type inherits: `InheritedAnnotation` and its dedup, after compile.rs. Lists are lent, and changed in place, where the Rust's
// go by value: each call would copy one. What is taken into its caller has its lists in the caller's frame for as long as that runs,
// so that here and above a function with lists of its own is `inline(never)` where others are called beside it.
#![tactic(auto)]

ghost use Rattle.std.specs.Prelude.{◌≡◌, [], ◌∷◌, ◌++◌, map, ◌≤◌, IfSome};
ghost use Rattle.synth_annotations.specs.Reading.{overlap_at};
ghost use Rattle.synth_dedup.specs.Entries.{shared_by, left_by, inter, diff, stands, unless_empty, merge, join_all, entries_of, Sound, Apart};
ghost use Rattle.synth_dedup.specs.EntryLaws.{PlaceOf, no_entries};
ghost use Rattle.synth_dedup.specs.Reading.{no_doms, under_place, Kept, Nothing, Unites, Joins, JoinsAll};

mod inherited;

use bounded::UpTo;
pub use inherited::Inherited;
use rows::Row;
use sheet_records::Kind;
use synth_annotations::Overlap;

// An inherited annotation: its kind, its words as a row of bits, and the types that it is inherited from, by their places in name
// order.
#[derive(Clone, Copy)]
pub struct Entry {
    pub kind: Kind,
    pub words: Row,
    pub parents: u64,
}

// In a list that is inherited no two entries share a word, so that it has at most 200: `Kept`, which Inherited has as a ghost
// field. One place is to spare.
pub type Entries = UpTo<Entry, 201>;

// The words of what two entries of the kinds k and j share. The kinds decide, as they do for two annotations.
fn shared_words(k: Kind, j: Kind, x: Row, y: Row) -> Row
    ensures { result ≡ shared_by (overlap_at k j) x y }
{
    match synth_annotations::overlap_of(k, j) {
        Overlap::Nothing => rows::empty_row(),
        Overlap::Whole => x,
        Overlap::ByWord => rows::in_both(x, y),
    }
}

// The words of what is left of the first.
fn left_words(k: Kind, j: Kind, x: Row, y: Row) -> Row
    ensures { result ≡ left_by (overlap_at k j) x y }
{
    match synth_annotations::overlap_of(k, j) {
        Overlap::Nothing => x,
        Overlap::Whole => rows::empty_row(),
        Overlap::ByWord => rows::in_first(x, y),
    }
}

// `InheritedAnnotation::intersection`: what both annotations share, inherited from the parents of both.
pub fn intersection(x: Entry, y: Entry) -> Entry
    ensures { result ≡ inter x y }
{
    let v = x.words;
    let w = y.words;
    let words = shared_words(x.kind, y.kind, v, w);
    Entry {
        kind: x.kind,
        words,
        parents: x.parents | y.parents,
    }
}

// `InheritedAnnotation::difference`: the rest of the first, inherited from the parents of the first.
pub fn difference(x: Entry, y: Entry) -> Entry
    ensures { result ≡ diff x y }
{
    let v = x.words;
    let w = y.words;
    let words = left_words(x.kind, y.kind, v, w);
    Entry {
        kind: x.kind,
        words,
        parents: x.parents,
    }
}

// Whether it has a word: one that has none is no entry (FORMAT 8.9).
pub fn stands(e: Entry) -> bool
    ensures { result ≡ stands e }
{
    !rows::is_none(e.words)
}

// The list with an entry behind the others, if it stands.
fn push_standing(l: &mut Entries, e: Entry)
    requires { l.old.count ≤ 200 }
    ensures { entries_of l.new ≡ entries_of l.old ++ unless_empty e }
{
    if stands(e) {
        l.push(e);
    }
}

// The newcomer alone.
#[inline(never)]
fn alone(newcomer: Entry) -> Entries
    ensures { (entries_of result ≡ newcomer ∷ []) × (result.count ≡ 1) }
{
    let mut out = no_entries();
    out.push(newcomer);
    out
}

// The list that a newcomer has joined: each earlier entry split into its rest and what it shares, behind all of them the
// newcomer's rest (FORMAT 8.9). One that has no word of the newcomer shares nothing: it is its own rest, and the newcomer stays.
// Of the others the kinds decide.
// `Sound` is no ghost field of an entry: `intersection` and `difference` take entries of all kinds.
pub fn merged(l: &Entries, newcomer: Entry) -> Entries
    requires apart { Apart (entries_of l.now) }
    requires count_bound { (l.now.count ≤ 200) × Sound newcomer }
    ensures { (entries_of result ≡ merge (entries_of l.now) newcomer) × (result.count ≤ 200) }
{
    let mut out = no_entries();
    let mut n = newcomer;
    for a in l.as_slice() {
        if rows::is_none(rows::in_both(a.words, n.words)) {
            push_standing(&mut out, *a);
        } else {
            push_standing(&mut out, difference(*a, n));
            out.push(intersection(*a, n));
            n = difference(n, *a);
        }
    }
    push_standing(&mut out, n);
    out
}

// A newcomer joins a list. The first of a list stays as it is, an associate without resources as well.
pub fn dedup_inherited_annotations_one(l: &Entries, newcomer: Entry) -> Entries
    requires kept { Kept l.now }
    requires sound { Sound newcomer }
    ensures { Joins l.now newcomer result }
{
    if l.count == 0 {
        return alone(newcomer);
    }
    merged(l, newcomer)
}

// No entries.
#[inline(never)]
pub fn no_entries() -> Entries
    ensures { (entries_of result ≡ []) × (result.count ≡ 0) × (result.items ≡ no_entries) }
{
    let blank = Entry {
        kind: Kind::MakeList,
        words: rows::empty_row(),
        parents: 0,
    };
    UpTo {
        count: 0,
        items: [blank; 201],
    }
}

// Dom sets in which nothing stands.
pub fn no_doms() -> [Row; 200]
    ensures { result ≡ no_doms }
{
    let r = rows::empty_row();
    [r; 200]
}

// Nothing is inherited.
#[inline(never)]
pub fn nothing() -> Inherited
    ensures { Nothing result }
{
    let list = no_entries();
    let doms = no_doms();
    Inherited { list, doms }
}

// The doms of both, word by word. A word that an entry has not has no doms, so that all words go alike.
pub fn united(doms: &[Row; 200], given: &[Row; 200]) -> [Row; 200]
    ensures { Unites doms.now given.now result }
{
    let mut out = *doms;
    for (w, y) in given.iter().enumerate() {
        out[w] = rows::in_either(doms[w], *y);
    }
    out
}

// Where an entry with these words stands, in a list whose first entry has words.
fn place_of(l: &Entries, words: Row) -> Option<usize>
    requires { l.now.count ≤ 200 }
    ensures { IfSome result (PlaceOf l.now words) }
{
    if !stands(l.items[0]) {
        return None;
    }
    l.as_slice().iter().position(|e| e.words == words)
}

// The entries of a parent join a list, one after the other, under that parent. Most stand there, from another parent, and are
// found in their place.
#[inline(never)]
pub fn joined_entries(l: &mut Entries, p: &Entries, parent: u64)
    requires kept { Kept l.old }
    requires kept_2 { Kept p.now }
    ensures { Kept l.new × (entries_of l.new ≡ join_all (entries_of l.old) (map (under_place parent) (entries_of p.now))) }
{
    for e in p.as_slice() {
        let n = Entry {
            parents: parent,
            ..*e
        };
        match place_of(l, n.words) {
            Some(at) => {
                let both = intersection(l.items[at], n);
                l.set(at, both);
            }
            None => *l = dedup_inherited_annotations_one(l, n),
        }
    }
}

// What a type inherits from one parent more, which itself inherits p. The dom sets are united once for all its entries.
#[inline(never)]
pub fn dedup_inherited_annotations(h: &mut Inherited, p: &Inherited, parent: u64)
    ensures { JoinsAll h.old p.now parent h.new }
{
    joined_entries(&mut h.list, &p.list, parent);
    h.doms = united(&h.doms, &p.doms);
}
