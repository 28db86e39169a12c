// What a type inherits.
ghost use Rattle.std.proofs.Props.{props};
ghost use Rattle.synth_dedup.specs.Entries.{Apart-prop};
ghost use Rattle.synth_dedup.specs.Keeping.{Good};

use crate::Entries;
use rows::Row;

// Since entries share no word, a dom set belongs to its word, whatever the entry.
#[derive(Clone, Copy)]
pub struct Inherited {
    pub list: Entries,
    pub doms: [Row; 200],
    pub ghost good: { Good list doms } by { Prim.hlevel (props, Apart-prop) },
}
