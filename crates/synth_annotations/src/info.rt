// An annotation by value.
ghost use Rattle.std.specs.Prelude.{◌≤◌};

use rows::Row;
use sheet_records::Kind;

// Its kind, the word of an Alias or the tag of a Derive, and the resources of an associate, words ascending, each with its dom
// set as a row of bits: 0 is none, d + 1 the word d. The names of an Inherit stand there as well, `a.b` as the word b with the
// dom a. The words have an array of their own, since the order of word lists compares them as a slice (FORMAT 1.6).
#[derive(Clone, Copy)]
pub struct AnnotationInfo {
    pub kind: Kind,
    pub tag: u8,
    pub count: usize,
    pub words: [u8; 15],
    pub doms: [Row; 15],
    pub ghost few: { count ≤ 15 },
}
