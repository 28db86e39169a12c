// What each type inherits, kept for its children: how many entries, the words of each, and the doms of each word. What is
// inherited is an Associate, and is handed on under the type that inherits it, so that neither kind nor parents are kept.
#![tactic(auto)]

ghost use Rattle.std.proofs.Props.{props};
ghost use Rattle.synth_dedup.specs.Entries.{Apart-prop};
ghost use Rattle.synth_store.specs.Saving.{Fit};

use bounded::UpTo;
use rows::Row;
use sheet_records::Kind;
use synth_dedup::{Entry, Inherited};

#[derive(Clone, Copy)]
pub struct Saved {
    pub words: UpTo<Row, 200>,
    pub doms: [Row; 200],
    pub ghost fit: { Fit words doms } by { Prim.hlevel (props, Apart-prop) },
}

impl Saved {
    ghost use Rattle.std.specs.Prelude.{◌≡◌};
    ghost use Rattle.synth_store.specs.Store.{Fetched, Holds};

    // That a type inherits nothing.
    pub fn nothing() -> Saved
        ensures { result.words.count ≡ 0 }
    {
        let words = UpTo::new(rows::empty_row());
        let doms = synth_dedup::no_doms();
        Saved { words, doms }
    }

    // What the type inherits. `inline(never)`, here and below: as in `synth_dedup`.
    #[inline(never)]
    pub fn fetch(&self) -> Inherited
        ensures { Fetched self.now result }
    {
        let mut list = synth_dedup::no_entries();
        for words in self.words.as_slice() {
            list.push(Entry {
                kind: Kind::Associate,
                words: *words,
                parents: 0,
            });
        }
        Inherited {
            list,
            doms: self.doms,
        }
    }

    // What the type inherits, to be kept.
    #[inline(never)]
    pub fn of(h: &Inherited) -> Saved
        ensures { Holds result h.now }
    {
        let mut words = UpTo::new(rows::empty_row());
        for e in h.list.as_slice() {
            words.push(e.words);
        }
        Saved {
            words,
            doms: h.doms,
        }
    }
}
