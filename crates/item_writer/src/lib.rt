// The items of a map, out of its catalogue, added to a pen one by one: of a type and a word, of a type, of all types in name order
// (FORMAT 5.3). `item_making::add_item` adds each. Every function says by `Grows` that the schedule so far, whatever it was, has its
// items behind it. The loops over them have one invariant, `Growing`: so far it has those of the items that are not left to add.
#![tactic(auto)]

ghost use Rattle.std.specs.Prelude.{◌≤◌, ◌<◌, length};
ghost use Rattle.catalogue.specs.Layout.{parents_at};
ghost use Rattle.item_pen.specs.Pen.{RoomForAll};
ghost use Rattle.item_pen.specs.SoFar.{Grows};
ghost use Rattle.item_writer.specs.Items.{Sound, PassingIs, CommonIs, WithRecord, RecordsAre, Sited, own_items, inherited_items, word_items, type_items, all_items};
ghost use Rattle.item_writer.specs.Items.{WordsFill, Cleared, WordsAre};

use catalogue::{Catalogue, Extension};
use item_making::{Item, Making};
use item_pen::ListingPen;

// A type and a word with a making, and the extension records for both.
#[derive(Clone, Copy)]
pub struct Site {
    pub place: usize,
    pub word: u64,
    pub records: u64,
}

// The parents that pass a class of the mask on (FORMAT 4.4).
#[tactic(auto, using(crate::specs::WriterLaws::passing_none, crate::specs::WriterLaws::passing_more, crate::specs::WriterLaws::passing_all))]
fn passing(t: &Catalogue, parents: u64, mask: u64) -> u64
    ensures { PassingIs t.now parents mask result }
{
    let mut out: u64 = 0;
    for p in bitsets::members(parents) {
        out = item_spread::with_if(out, p, t.passed[p] & mask != 0);
    }
    out
}

// What all types of a set pass on.
#[tactic(auto, using(crate::specs::WriterLaws::common_more, crate::specs::WriterLaws::common_all))]
fn common_of(t: &Catalogue, types: u64) -> u64
    ensures { CommonIs t.now types result }
{
    let mut out = u64::MAX;
    for p in bitsets::members(types) {
        out &= t.passed[p];
    }
    out
}

// The parents that pass a class of the mask on: all of them where there is one that all pass on.
#[tactic(auto, using(crate::specs::WriterLaws::all_pass))]
fn passing_of(t: &Catalogue, parents: u64, mask: u64, common: u64) -> u64
    requires { CommonIs t.now parents common }
    ensures { PassingIs t.now parents mask result }
{
    if common & mask != 0 {
        return parents;
    }
    passing(t, parents, mask)
}

// The records, with the one at e if it has the key.
#[tactic(auto, using(crate::specs::WriterLaws::record_taken))]
fn with_record(t: &Catalogue, records: u64, e: usize, key: u64) -> u64
    requires { e < 32 }
    ensures { WithRecord t.now records e key result }
{
    if t.extensions[e].key != key {
        return records;
    }
    bitsets::with_one(records, e)
}

// The extension records of a type and a word (FORMAT 4.5).
#[tactic(auto, using(crate::specs::WriterLaws::records_none, crate::specs::WriterLaws::records_all))]
fn records_of(t: &Catalogue, a: usize, word: u64) -> u64
    requires { Sound t.now × (a < t.now.count) × (word < 256) }
    ensures { RecordsAre t.now a word result }
{
    if !bitsets::has(t.extended, a) {
        return 0;
    }
    let key = Extension::key_of(t.keys[a], word);
    let mut out: u64 = 0;
    for e in 0..t.extension_count {
        out = with_record(t, out, e, key);
    }
    out
}

// The own resources of a type and a word, by ascending class (FORMAT 4.3, 5.3). The loop has the schedule so far: `Growing`.
fn add_own(pen: &mut ListingPen<'_>, t: &Catalogue, site: Site, own: u64)
    requires sited { Sited t.now site }
    requires room_for_all { RoomForAll pen.old (own_items t.now site own) }
    ensures { Grows pen.old pen.new (own_items t.now site own) }
{
    for c in bitsets::members(own) {
        let class = bitsets::with_one(0, c);
        let m = Making {
            word: site.word,
            records: site.records,
            firsts: class,
            classes: class,
            inherited: false,
        };
        item_making::add_item(pen, t, site.place, Item::Synthesized(m));
    }
}

// The inherited resource of a type and a word, if there is a class from above (FORMAT 4.4).
fn add_inherited(pen: &mut ListingPen<'_>, t: &Catalogue, site: Site, mask: u64, common: u64)
    requires sited { Sited t.now site × CommonIs t.now (parents_at t.now site.place) common }
    requires room_for_all { RoomForAll pen.old (inherited_items t.now site mask) }
    ensures { Grows pen.old pen.new (inherited_items t.now site mask) }
{
    let classes = t.above[site.place] & mask;
    if classes == 0 {
        return;
    }
    let firsts = passing_of(t, t.parents[site.place], mask, common);
    let m = Making {
        word: site.word,
        records: site.records,
        firsts,
        classes,
        inherited: true,
    };
    item_making::add_item(pen, t, site.place, Item::Synthesized(m));
}

// The items of a type and the k-th word: own resources, the inherited one, the extension line (FORMAT 5.3).
fn add_word(pen: &mut ListingPen<'_>, t: &Catalogue, a: usize, k: usize, common: u64)
    requires sound { Sound t.now × (a < t.now.count) × (k < t.now.word_count) × CommonIs t.now (parents_at t.now a) common }
    requires room_for_all { RoomForAll pen.old (word_items t.now a k) }
    ensures { Grows pen.old pen.new (word_items t.now a k) }
{
    let word = t.words[k].word;
    let mask = t.words[k].types;
    let site = Site {
        place: a,
        word,
        records: records_of(t, a, word),
    };
    add_own(pen, t, site, t.own[a] & mask);
    add_inherited(pen, t, site, mask, common);
    item_making::add_item(pen, t, a, Item::Extension(word));
}

// The word k is noted for each type of its mask. `words`, here and below, is a slice: an array would ask for exactly 64 places,
// and so more of callers.
fn fill_word(words: &mut [u64], types: u64, k: usize)
    requires { (64 ≤ length words.old) × (k < 64) }
    ensures { WordsFill words.old types k words.new }
{
    for c in bitsets::members(types) {
        words[c] = bitsets::with_one(words[c], k);
    }
}

// For each type the set of the words in whose masks it is.
pub fn fill_words(t: &Catalogue, words: &mut [u64])
    requires { Sound t.now × (64 ≤ length words.old) × Cleared words.old }
    ensures { WordsAre t.now words.new }
{
    for k in 0..t.word_count {
        fill_word(words, t.words[k].types, k);
    }
}

// The items of a type: its words with a making, ascending (FORMAT 5.3). The loop has the schedule so far, and that the words left are
// words of the catalogue.
fn add_type(pen: &mut ListingPen<'_>, t: &Catalogue, words: &[u64], a: usize)
    requires sound { Sound t.now × (a < t.now.count) × (64 ≤ length words.now) × WordsAre t.now words.now }
    requires room_for_all { RoomForAll pen.old (type_items t.now a) }
    ensures { Grows pen.old pen.new (type_items t.now a) }
{
    let common = common_of(t, t.parents[a]);
    let made = t.own[a] | t.above[a];
    let noted = item_spread::united(made, words);
    for k in bitsets::members(noted) {
        add_word(pen, t, a, k, common);
    }
}

// The items of all types, in name order (FORMAT 5.3). The loop has the schedule so far: `Growing`.
pub fn add_items(pen: &mut ListingPen<'_>, t: &Catalogue, words: &[u64])
    requires sound { Sound t.now × (64 ≤ length words.now) × WordsAre t.now words.now }
    requires room_for_all { RoomForAll pen.old (all_items t.now) }
    ensures { Grows pen.old pen.new (all_items t.now) }
{
    for a in 0..t.count {
        add_type(pen, t, words, a);
    }
}
