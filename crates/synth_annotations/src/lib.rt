// `AnnotationInfo::intersection` and `difference`, after annotations.rs.
#![tactic(auto)]

ghost use Rattle.std.specs.Prelude.{◌≡◌, ◌++◌, [], ltb};
ghost use Rattle.std.specs.Bool.{then_some};
ghost use Rattle.lists.specs.Lists.{set_of};
ghost use Rattle.definitions.specs.Comparisons.{dom_before};
ghost use Rattle.definitions.specs.Annotations.{same_alias, has_associated_word, doms_in, shared, less, intersection, difference};
ghost use Rattle.synth_annotations.specs.Reading.{doms_of, resources_in, info_of, overlap_at, as_overlap, part_of, With};

mod info;

pub use info::AnnotationInfo;
use rows::Row;
use sheet_records::Kind;

// What two annotations have in common: nothing; the whole, if they are equal; the resources of equal words.
#[derive(Clone, Copy, PartialEq, Eq)]
pub enum Overlap {
    Nothing,
    Whole,
    ByWord,
}

// By the two kinds alone (01: 'kind pairs is a match').
pub fn overlap_of(k: Kind, j: Kind) -> Overlap
    ensures { as_overlap result ≡ overlap_at k j }
{
    match k {
        Kind::MakeList => match j {
            Kind::MakeList => Overlap::Whole,
            Kind::Associate => Overlap::Nothing,
            Kind::NestAssociate => Overlap::Nothing,
            Kind::Alias => Overlap::Nothing,
            Kind::Inherit => Overlap::Nothing,
            Kind::Derive => Overlap::Nothing,
            Kind::NoDerive => Overlap::Nothing,
        },
        Kind::Associate => match j {
            Kind::MakeList => Overlap::Nothing,
            Kind::Associate => Overlap::ByWord,
            Kind::NestAssociate => Overlap::Nothing, // unlike kinds give none, these two as well
            Kind::Alias => Overlap::Nothing,
            Kind::Inherit => Overlap::Nothing,
            Kind::Derive => Overlap::Nothing,
            Kind::NoDerive => Overlap::Nothing,
        },
        Kind::NestAssociate => match j {
            Kind::MakeList => Overlap::Nothing,
            Kind::Associate => Overlap::Nothing,
            Kind::NestAssociate => Overlap::ByWord,
            Kind::Alias => Overlap::Nothing,
            Kind::Inherit => Overlap::Nothing,
            Kind::Derive => Overlap::Nothing,
            Kind::NoDerive => Overlap::Nothing,
        },
        Kind::Alias => match j {
            Kind::MakeList => Overlap::Nothing,
            Kind::Associate => Overlap::Nothing,
            Kind::NestAssociate => Overlap::Nothing,
            Kind::Alias => Overlap::Whole,
            Kind::Inherit => Overlap::Nothing,
            Kind::Derive => Overlap::Nothing,
            Kind::NoDerive => Overlap::Nothing,
        },
        Kind::Inherit => match j {
            Kind::MakeList => Overlap::Nothing,
            Kind::Associate => Overlap::Nothing,
            Kind::NestAssociate => Overlap::Nothing,
            Kind::Alias => Overlap::Nothing,
            Kind::Inherit => Overlap::Nothing, // two Inherit give none
            Kind::Derive => Overlap::Nothing,
            Kind::NoDerive => Overlap::Nothing,
        },
        Kind::Derive => match j {
            Kind::MakeList => Overlap::Nothing,
            Kind::Associate => Overlap::Nothing,
            Kind::NestAssociate => Overlap::Nothing,
            Kind::Alias => Overlap::Nothing,
            Kind::Inherit => Overlap::Nothing,
            Kind::Derive => Overlap::Nothing, // two Derive give none
            Kind::NoDerive => Overlap::Nothing,
        },
        Kind::NoDerive => match j {
            Kind::MakeList => Overlap::Nothing,
            Kind::Associate => Overlap::Nothing,
            Kind::NestAssociate => Overlap::Nothing,
            Kind::Alias => Overlap::Nothing,
            Kind::Inherit => Overlap::Nothing,
            Kind::Derive => Overlap::Nothing,
            Kind::NoDerive => Overlap::Whole,
        },
    }
}

// Whether the two have the same Alias, or neither has one: the law's test, which is no equality of the structs.
pub fn same_alias(x: AnnotationInfo, y: AnnotationInfo) -> bool
    ensures { result ≡ same_alias (info_of x) (info_of y) }
{
    match x.kind {
        Kind::Alias => match y.kind {
            Kind::Alias => x.tag == y.tag,
            _ => false,
        },
        _ => !matches!(y.kind, Kind::Alias),
    }
}

// Whether it has a resource of that word.
pub fn has_word(y: AnnotationInfo, w: u8) -> bool
    ensures { result ≡ has_associated_word (resources_in y) w }
{
    let count = y.count;
    let words = y.words;
    words.iter().take(count).any(|v| *v == w)
}

// The doms d, and those that y gives the word (FORMAT 8.8).
pub fn united(d: Row, y: AnnotationInfo, w: u8) -> Row
    ensures { doms_of result ≡ set_of dom_before (doms_of d ++ doms_in (resources_in y) w) }
{
    let words = &y.words[..y.count];
    let mut out = d;
    for (v, e) in words.iter().zip(y.doms.iter()) {
        if *v == w {
            out = rows::in_either(out, *e);
        }
    }
    out
}

// The resources of x whose words y has as well, with the doms of both (FORMAT 8.8). A resource is stored at k, and k moves on
// if the word is shared: no push, since one count goes for the two arrays of `AnnotationInfo`.
pub fn shared_resources(x: AnnotationInfo, y: AnnotationInfo) -> AnnotationInfo
    ensures { With x (shared (resources_in x) (resources_in y)) result }
{
    let count = x.count;
    let words = x.words;
    let doms = x.doms;
    let mut out = words;
    let mut sets = doms;
    let mut k: usize = 0;
    for i in 0..count {
        let w = words[i];
        let d = doms[i];
        let e = united(d, y, w);
        out[k] = w;
        sets[k] = e;
        if has_word(y, w) {
            k += 1;
        }
    }
    AnnotationInfo {
        kind: x.kind,
        tag: x.tag,
        count: k,
        words: out,
        doms: sets,
    }
}

// The resources of x whose words y has not (FORMAT 8.8). A resource is stored at k, as there, and k moves on if it stays. One function
// for both would take a flag that turns the test and says whether doms are united; the law has two, `shared` and `less`.
pub fn less_resources(x: AnnotationInfo, y: AnnotationInfo) -> AnnotationInfo
    ensures { With x (less (resources_in x) (resources_in y)) result }
{
    let count = x.count;
    let words = x.words;
    let doms = x.doms;
    let mut out = words;
    let mut sets = doms;
    let mut k: usize = 0;
    for i in 0..count {
        let w = words[i];
        let d = doms[i];
        out[k] = w;
        sets[k] = d;
        if !has_word(y, w) {
            k += 1;
        }
    }
    AnnotationInfo {
        kind: x.kind,
        tag: x.tag,
        count: k,
        words: out,
        doms: sets,
    }
}

// An associate without resources is none (FORMAT 8.8).
fn unless_empty(x: AnnotationInfo) -> Option<AnnotationInfo>
    ensures { result ≡ then_some (ltb 0 x.count) x }
{
    (x.count > 0).then_some(x)
}

// What two annotations share (FORMAT 8.8): x itself, if x and y are equal and of a kind that is shared whole; the shared
// resources of two associates of one kind; otherwise none.
pub fn intersection(x: AnnotationInfo, y: AnnotationInfo) -> Option<AnnotationInfo>
    ensures { part_of result ≡ intersection (info_of x) (info_of y) }
{
    match overlap_of(x.kind, y.kind) {
        Overlap::Nothing => None,
        Overlap::Whole => same_alias(x, y).then_some(x),
        Overlap::ByWord => unless_empty(shared_resources(x, y)),
    }
}

// What x has and y has not (FORMAT 8.8): none of an equal annotation of a kind that is shared whole; the other resources of
// an associate less one of its kind; otherwise x, even where both are equal Derives or Inherits.
pub fn difference(x: AnnotationInfo, y: AnnotationInfo) -> Option<AnnotationInfo>
    ensures { part_of result ≡ difference (info_of x) (info_of y) }
{
    match overlap_of(x.kind, y.kind) {
        Overlap::Nothing => Some(x),
        Overlap::Whole => (!same_alias(x, y)).then_some(x),
        Overlap::ByWord => unless_empty(less_resources(x, y)),
    }
}
