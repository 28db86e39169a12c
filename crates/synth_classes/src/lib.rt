// The classes of a word, looked up in the catalogue.
#![tactic(auto)]

ghost use Rattle.std.specs.Prelude.{◌≡◌, ◌+◌, ◌*◌, ◌%◌, ◌<◌};
ghost use Rattle.definitions.specs.Comparisons.{dotted};
ghost use Rattle.fields.specs.Fields.{name_of};
ghost use Rattle.synth_annotations.specs.Reading.{dom_at};
ghost use Rattle.catalogue.specs.Layout.{key_at};
ghost use Rattle.sheet_keys.specs.Keys.{name_of_key};
ghost use Rattle.synth_classes.specs.Classes.{place_if, place_of, place_in};

mod numbers;
mod site;

use catalogue::Catalogue;
use fields::Name;
pub use numbers::{Doms, Numbers};
use rows::Row;
pub use site::Site;

// What a making comes from: the doms of its classes, and the direct parents that pass it on, of which an own one has none.
#[derive(Clone, Copy)]
pub struct Origin {
    pub doms: Row,
    pub parents: u64,
}

// The place of the type of that name, if one is declared (FORMAT 1.5): its first word, and one more than its second, or 0 where
// it has none. A word past those of the sheet is that of no name. These are the parts of a key: a Name has 255 where it has no
// second word, and would be made of them to be taken apart again.
#[tactic(auto, using(crate::specs::ClassLaws::place_first, crate::specs::ClassLaws::place_second, crate::specs::ClassLaws::place_there))]
pub fn place_of(t: &Catalogue, first: usize, second: usize) -> Option<usize>
    requires { (first < 256) × (second < 256) }
    ensures { result ≡ place_if (place_of t.now (first * 256 + second)) }
{
    if t.width <= first || t.width < second {
        return None;
    }
    let set = t.type_of((first * 256 + second) as u64);
    let place = u64::trailing_zeros(set) as usize;
    (place < 64).then_some(place)
}

// The place of the class of a dom and a word, if it is declared (FORMAT 4.2): the dom 0 is none, d + 1 the word d.
// A word that is asked for without a place is a number with a clause: as a type each look-up, name and row would open it.
#[tactic(auto, using(crate::specs::ClassLaws::dom_none, crate::specs::ClassLaws::dom_word))]
pub fn class_place(t: &Catalogue, dom: usize, word: u8) -> Option<usize>
    requires { (dom < 257) × (word < 255) }
    ensures { result ≡ place_if (place_in t.now word dom) }
{
    let second = word as usize;
    if dom == 0 {
        return place_of(t, second, 0);
    }
    place_of(t, dom - 1, second + 1)
}

// The class of a dom and a word, as a name. A dom is its place in a row, 0 for none, since a row has one bit for each: an Option
// would be made of the place, here and in `class_place`, and asked once.
pub fn class_name(dom: usize, word: u8) -> Name
    requires { (dom < 256) × (word < 255) }
    ensures { name_of result ≡ dotted (dom_at dom) word }
{
    if dom == 0 {
        return Name {
            first: word,
            second: 255,
        };
    }
    let d = (dom - 1) as u8;
    Name {
        first: d,
        second: word,
    }
}

// The name of the type at a place.
#[tactic(auto, using(crate::specs::ClassLaws::key_words))]
pub fn name_at(t: &Catalogue, place: usize) -> Name
    requires { place < 64 }
    ensures { name_of result ≡ name_of_key (key_at t.now place % 65536) }
{
    Name::from(t.keys[place])
}
