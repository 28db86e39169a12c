// Whether a making is a duplicate: the type T.r is declared, or the same resource was made before (FORMAT 4.9).
#![tactic(auto)]

ghost use Rattle.std.specs.Prelude.{◌<◌};
ghost use Rattle.synth_duplicates.specs.Held.{Declared, SameAs, Made, Repeated};

use bounded::UpTo;
use catalogue::Catalogue;
use rows::Row;
use synth_classes::{Origin, Site};

// A resource that was made: its word, and what it comes from.
#[derive(Clone, Copy)]
pub struct Making {
    pub word: u8,
    pub origin: Origin,
}

impl Making {
    // What stands where no making does.
    pub const BLANK: Making = Making {
        word: 0,
        origin: Origin {
            doms: Row {
                a: 0,
                b: 0,
                c: 0,
                d: 0,
            },
            parents: 0,
        },
    };
}

// The makings of one type, in the order in which they were made. An own word is made at most once for each of 12 annotations of
// 15 words, an inherited one once, so that there are at most 380.
pub type Makings = UpTo<Making, 380>;

// Whether T.r is declared. A two-word T gives three-word names, which are never declared. The key is taken apart here, since
// `place_of` asks for the parts of a key: a Name would be made of it and turned back.
#[tactic(auto, using(crate::specs::HeldLaws::declared_three, crate::specs::HeldLaws::declared_two))]
pub fn is_declared(t: &Catalogue, site: Site) -> bool
    ensures { Declared t.now site.place site.word result }
{
    let key = t.keys[site.place];
    if key % 256 != 0 {
        return false;
    }
    let first = (key / 256 % 256) as usize;
    let second = site.word as usize;
    synth_classes::place_of(t, first, second + 1).is_some()
}

// Whether a making is identical to that of a word. Only those of the same word are compared.
#[tactic(auto, using(crate::specs::HeldLaws::same_word, crate::specs::HeldLaws::other_word))]
fn is_same_making(t: &Catalogue, site: Site, origin: Origin, making: Making) -> bool
    ensures { SameAs t.now site origin making result }
{
    making.word == site.word && synth_same::is_same(t, site, origin, making.origin)
}

// Whether an earlier making of the type is identical to that of a word.
pub fn is_made(t: &Catalogue, site: Site, origin: Origin, made: &Makings) -> bool
    ensures { Made t.now site origin made.now made.now.count result }
{
    made.as_slice()
        .iter()
        .any(|making| is_same_making(t, site, origin, *making))
}

// Kind 6 (FORMAT 8.10): T.r is declared, or an earlier making is identical.
#[tactic(auto, using(crate::specs::HeldLaws::repeated_declared, crate::specs::HeldLaws::repeated_made))]
pub fn is_duplicate(t: &Catalogue, site: Site, origin: Origin, made: &Makings) -> bool
    ensures { Repeated t.now site origin made.now made.now.count result }
{
    is_declared(t, site) || is_made(t, site, origin, made)
}
