// What may not stand twice within a type, refusal 6: a word in an associate, or an annotation; two associates of one kind are
// equal if they have the same words (FORMAT 2.12).
#![tactic(auto)]

ghost use Rattle.std.specs.Prelude.{◌&&◌, ◌≡◌, eqb, get_or, drop, map};
ghost use Rattle.lists.specs.Lists.{any, all, repeats, same_list};
ghost use Rattle.definitions.specs.Checks.{same_annotation};
ghost use Rattle.sheet_records.specs.Annotations.{annotation_of, word_of_rows, zero_annotation};
ghost use Rattle.sheet_same.specs.Repeats.{words_of, rows_of, row_at, repeats_word, same_content, repeats_in};

use bits::byte_at;
use sheet_records::{Annotation, Kind};

// Whether w is among the words from place `from` on.
fn has_word_from(a: &Annotation, w: u8, from: usize) -> bool
    ensures { result ≡ any (eqb w) (drop from (words_of a.now)) }
{
    (from..a.count).any(|j| w == byte_at(&a.words, j))
}

fn has_word_twice(a: Annotation) -> bool
    ensures { result ≡ repeats eqb (words_of a) }
{
    (0..a.count).any(|i| has_word_from(&a, byte_at(&a.words, i), i + 1))
}

// Whether a word stands twice within an associate, whatever the doms.
pub fn repeats_word(a: Annotation) -> bool
    ensures { result ≡ repeats_word (annotation_of a) }
{
    match a.kind {
        Kind::Associate | Kind::NestAssociate => has_word_twice(a),
        Kind::MakeList | Kind::Alias | Kind::Inherit | Kind::Derive | Kind::NoDerive => false,
    }
}

// Whether each word of a is one of b.
fn is_within(a: &Annotation, b: &Annotation) -> bool
    ensures { result ≡ all (λ w. any (eqb w) (words_of b.now)) (words_of a.now) }
{
    (0..a.count).all(|i| has_word_from(b, byte_at(&a.words, i), 0))
}

fn is_same_row(a: &Annotation, b: &Annotation, i: usize) -> bool
    ensures { result ≡ same_list eqb (row_at a.now i) (row_at b.now i) }
{
    byte_at(&a.words, i) == byte_at(&b.words, i) && byte_at(&a.doms, i) == byte_at(&b.doms, i)
}

// Whether two Inherits list the same names in the same order.
fn is_same_rows(a: &Annotation, b: &Annotation) -> bool
    ensures { result ≡ same_list (same_list eqb) (rows_of a.now) (rows_of b.now) }
{
    a.count == b.count && (0..a.count).all(|i| is_same_row(a, b, i))
}

// The word of the only row; 255 where there is none. No Option: an Alias and a Derive have their row whenever they are read, and
// no other kind is asked.
fn only_word(a: &Annotation) -> u8
    ensures { result ≡ word_of_rows (rows_of a.now) }
{
    if a.count == 0 { 255 } else { a.words[0] }
}

// Whether two associates have the same words, in any order and whatever the doms.
fn is_same_set(a: &Annotation, b: &Annotation) -> bool
    ensures { result ≡ (all (λ w. any (eqb w) (words_of b.now)) (words_of a.now) && all (λ w. any (eqb w) (words_of a.now)) (words_of b.now)) }
{
    is_within(a, b) && is_within(b, a)
}

// Whether two annotations of one kind are equal. It is the law's equality and no derived one: of associates it compares the words
// as sets, and what an array has past its count does not matter.
fn is_same_content(kind: Kind, a: &Annotation, b: &Annotation) -> bool
    ensures { result ≡ same_content kind a.now b.now }
{
    match kind {
        Kind::Associate | Kind::NestAssociate => is_same_set(a, b),
        Kind::Inherit => is_same_rows(a, b),
        Kind::Alias | Kind::Derive => only_word(a) == only_word(b),
        Kind::MakeList | Kind::NoDerive => true,
    }
}

// Whether two annotations are equal, which those of unlike kinds are not.
pub fn is_same_annotation(a: Annotation, b: Annotation) -> bool
    ensures { result ≡ same_annotation (annotation_of a) (annotation_of b) }
{
    a.kind == b.kind && is_same_content(a.kind, &a, &b)
}

// The annotation at i; MakeList past the end.
#[tactic(auto, using(crate::specs::RepeatLaws::no_rows))]
fn annotation_at(l: &[Annotation], i: usize) -> Annotation
    ensures { annotation_of result ≡ annotation_of (get_or l.now i zero_annotation) }
{
    match l.get(i) {
        Some(x) => *x,
        None => Annotation::BLANK,
    }
}

// Whether x is equal to one of the annotations from place `from` on.
fn has_annotation_from(l: &[Annotation], x: Annotation, from: usize) -> bool
    ensures { result ≡ any (same_annotation (annotation_of x)) (drop from (map annotation_of l.now)) }
{
    (from..l.len()).any(|j| is_same_annotation(x, annotation_at(l, j)))
}

// Whether two annotations of a type are equal.
fn repeats_annotation(l: &[Annotation]) -> bool
    ensures { result ≡ repeats same_annotation (map annotation_of l.now) }
{
    (0..l.len()).any(|i| has_annotation_from(l, annotation_at(l, i), i + 1))
}

// Whether a word stands twice within one of the associates.
fn has_repeated_word(l: &[Annotation]) -> bool
    ensures { result ≡ any repeats_word (map annotation_of l.now) }
{
    (0..l.len()).any(|i| repeats_word(annotation_at(l, i)))
}

// Whether within a type a word stands twice in an associate, or an annotation twice. There may be more annotations than a type
// has room for.
pub fn is_repeating(annotations: &[Annotation]) -> bool
    ensures { result ≡ repeats_in (map annotation_of annotations.now) }
{
    has_repeated_word(annotations) || repeats_annotation(annotations)
}
