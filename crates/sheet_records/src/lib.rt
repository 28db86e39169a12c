// Annotations and marks, as read.
#![tactic(auto)]

ghost use Rattle.std.specs.Prelude.{List, Bool, ◌&&◌, not, eqb, [], ◌∷◌, ◌++◌, ◌≡◌, ◌+◌, ◌≤◌, ◌<◌, drop};
ghost use Rattle.definitions.specs.Bits.{bits_of};
ghost use Rattle.definitions.specs.Parse.{next, pure, repeat, counted};
ghost use Rattle.definitions.specs.Reading.{annotation, mark};
ghost use Rattle.bits.specs.Reading.{Addressable};
ghost use Rattle.fields.specs.Fields.{of_parsed, of_field, bits_in, of_names};
ghost use Rattle.sheet_records.specs.Kinds.{number_of, IsKind};
ghost use Rattle.sheet_records.specs.Annotations.{rows_for, with_kind, annotation_of, of_annotations};
ghost use Rattle.sheet_records.specs.Marks.{mark_of, of_marks};

use bits::Cursor;
use bounded::UpTo;
use fields::{Fault, Name, Names, Parsed, Sheet};

// The kinds of annotations, in the order of their numbers (FORMAT 2.7).
#[derive(Clone, Copy, PartialEq, Eq, PartialOrd, Ord)]
pub enum Kind {
    MakeList,
    Associate,
    NestAssociate,
    Alias,
    Inherit,
    Derive,
    NoDerive,
}

impl Kind {
    // The kind of a number that is known to have one.
    pub fn of(number: usize) -> Kind
        requires { number ≤ 6 }
        ensures { number_of result ≡ number }
    {
        match number {
            0 => Kind::MakeList,
            1 => Kind::Associate,
            2 => Kind::NestAssociate,
            3 => Kind::Alias,
            4 => Kind::Inherit,
            5 => Kind::Derive,
            _ => Kind::NoDerive,
        }
    }
}

// The kind of any three bits: 7 is none (FORMAT 2.7).
impl TryFrom<usize> for Kind {
    type Error = Fault;

    ghost try_from_gives = { IsKind };

    fn try_from(number: usize) -> Result<Self, Fault> {
        if number <= 6 {
            Ok(Kind::of(number))
        } else {
            Err(Fault::NotAllowed)
        }
    }
}

// The number of a kind.
impl From<Kind> for u8 {
    ghost from_gives = { λ kind number. number ≡ number_of kind };

    fn from(kind: Kind) -> u8 {
        kind as u8
    }
}

// An annotation as read (01: 'a kind beside flat arrays'). An associate has count words, each with its dom or 255; an Inherit
// has the two words of each name there; an Alias has its word, and a Derive its tag, as its only word.
#[derive(Clone, Copy)]
pub struct Annotation {
    pub kind: Kind,
    pub count: usize,
    pub words: [u8; 15],
    pub doms: [u8; 15],
}

impl Annotation {
    // What stands where a list has no annotation.
    pub const BLANK: Annotation = Annotation {
        kind: Kind::MakeList,
        count: 0,
        words: [255; 15],
        doms: [255; 15],
    };
}

// The annotations of a type.
pub type Annotations = UpTo<Annotation, 12>;

// A mark (FORMAT 2.9): makelist, or a derive with its tag.
#[derive(Clone, Copy, PartialEq, Eq)]
pub enum Mark {
    Makelist,
    Derive(u8),
}

// The marks of a type.
pub type Marks = UpTo<Mark, 7>;

// One row, a word alone, of a word that was read.
fn one_row(word: Parsed<u8>) -> Parsed<Names>
    ensures { (bs : List Bool) → of_parsed of_names bs result ≡ next (of_field bs word) (λ w. pure ((w ∷ []) ∷ [])) }
{
    let (first, next) = word?;
    let mut names = Names::new();
    names.push(Name { first, second: 255 });
    Ok((names, next))
}

// What follows the kind (FORMAT 2.7): the resources of an associate, the names of an Inherit, a word, a tag, or nothing.
fn read_rows(s: Sheet, c: Cursor, kind: Kind) -> Parsed<Names>
    ensures { of_parsed of_names (bits_in s.entry) result ≡ rows_for s.entry.words (number_of kind) (drop c.at (bits_in s.entry)) }
{
    match kind {
        Kind::Associate | Kind::NestAssociate | Kind::Inherit => { fields::read_names(s, c, 0, 15) }
        Kind::Alias => one_row(fields::read_word_field(s.bytes, c, s.words)),
        Kind::Derive => one_row(fields::read_tag(s.bytes, c)),
        Kind::MakeList | Kind::NoDerive => Ok((Names::new(), c)),
    }
}

// The annotation of a kind with the rows that were read.
fn with_kind(kind: Kind, rows: Names) -> Annotation
    ensures { result ≡ with_kind kind rows }
{
    // Variables, since a field that is an array is not covered by a proof where it stands in a literal.
    let words = rows.first;
    let doms = rows.second;
    Annotation {
        kind,
        count: rows.count,
        words,
        doms,
    }
}

// A NestAssociate does not stand in a two-word type (FORMAT 2.7). `single`, here and above, says that the name of the type has
// one word: a fact of the sheet, which the definitions take as a Bool too.
pub fn is_nested_in_two(kind: Kind, single: bool) -> bool
    ensures { result ≡ (eqb (number_of kind) 2 && not single) }
{
    kind == Kind::NestAssociate && !single
}

// An annotation: its kind, and what follows it. A NestAssociate in a two-word type is refused at its kind (FORMAT 2.7).
pub fn read_annotation(s: Sheet, c: Cursor, single: bool) -> Parsed<Annotation>
    ensures { of_parsed annotation_of (bits_in s.entry) result ≡ annotation s.entry.words single (drop c.at (bits_in s.entry)) }
{
    let (number, next) = fields::read_between(s.bytes, c, 3, 0, 6)?;
    let kind = Kind::of(number);
    if is_nested_in_two(kind, single) {
        return Err(Fault::NotAllowed);
    }
    let (rows, end) = read_rows(s, next, kind)?;
    Ok((with_kind(kind, rows), end))
}

// n annotations: a loop of its own, as each kind of list has that is kept.
#[tactic(auto, using(crate::specs::AnnotationLaws::annotations_none))]
fn read_each_annotation(s: Sheet, c: Cursor, single: bool, n: usize) -> Parsed<Annotations>
    requires { n ≤ 12 }
    ensures { of_parsed of_annotations (bits_in s.entry) result ≡ repeat (annotation s.entry.words single) n (drop c.at (bits_in s.entry)) }
{
    let mut next = c;
    let mut annotations: Annotations = UpTo::new(Annotation::BLANK);
    for _ in 0..n {
        let (annotation, end) = read_annotation(s, next, single)?;
        annotations.push(annotation);
        next = end;
    }
    Ok((annotations, next))
}

// The annotations of a type, at most 12 (FORMAT 2.6).
pub fn read_annotations(s: Sheet, c: Cursor, single: bool) -> Parsed<Annotations>
    ensures { of_parsed of_annotations (bits_in s.entry) result ≡ counted 4 0 12 (annotation s.entry.words single) (drop c.at (bits_in s.entry)) }
{
    let (n, next) = fields::read_between(s.bytes, c, 4, 0, 12)?;
    read_each_annotation(s, next, single, n)
}

pub fn read_mark(s: &[u8], c: Cursor) -> Parsed<Mark>
    requires { Addressable s.now }
    ensures { of_parsed mark_of (bits_of s.now) result ≡ mark (drop c.at (bits_of s.now)) }
{
    let (flag, next) = fields::read_field(s, c, 1)?;
    if flag == 1 {
        let (tag, end) = fields::read_tag(s, next)?;
        Ok((Mark::Derive(tag), end))
    } else {
        Ok((Mark::Makelist, next))
    }
}

// n marks: a loop of its own, as each kind of list has that is kept.
#[tactic(auto, using(crate::specs::MarkLaws::marks_none))]
fn read_each_mark(s: &[u8], c: Cursor, n: usize) -> Parsed<Marks>
    requires { Addressable s.now × (n ≤ 7) }
    ensures { of_parsed of_marks (bits_of s.now) result ≡ repeat mark n (drop c.at (bits_of s.now)) }
{
    let mut next = c;
    let mut marks: Marks = UpTo::new(Mark::Makelist);
    for _ in 0..n {
        let (mark, end) = read_mark(s, next)?;
        marks.push(mark);
        next = end;
    }
    Ok((marks, next))
}

// The marks of a type, at most 7 (FORMAT 2.6).
pub fn read_marks(s: &[u8], c: Cursor) -> Parsed<Marks>
    requires { Addressable s.now }
    ensures { of_parsed of_marks (bits_of s.now) result ≡ counted 3 0 7 mark (drop c.at (bits_of s.now)) }
{
    let (n, next) = fields::read_between(s, c, 3, 0, 7)?;
    read_each_mark(s, next, n)
}
