// The annotations and marks of a type, read where they stand in the sheet: the sets of their classes, and the marks as bits. The
// decoder has read them before, so nothing is tested twice.
#![tactic(auto)]

ghost use Rattle.std.specs.Prelude.{◌≡◌, ◌<◌, eqb};
ghost use Rattle.definitions.specs.Bits.{bits_of};
ghost use Rattle.bits.specs.Reading.{Addressable};
ghost use Rattle.item_classes.specs.Classes.{class_in, GathersMore};
ghost use Rattle.sheet_records.specs.Annotations.{resource_of};
ghost use Rattle.sheet_records.specs.Kinds.{number_of};
ghost use Rattle.item_notes.specs.Notes.{name_in, NamesAt, AnnotationAt, AnnotationsAt, MarksAt, NotesAt, RowsGathered, NamesSkipped, AnnotationGathered, AnnotationsGathered, MarksPacked, NotesGathered};

use catalogue::Catalogue;
use fields::{Key, Name};
use item_classes::Classes;
use item_heads::Packed;
use sheet_records::Kind;

// The classes found so far, and the place behind what was read.
#[derive(Clone, Copy)]
struct Gathered {
    classes: Classes,
    at: usize,
}

// What the annotations and marks of a type come to.
#[derive(Clone, Copy)]
pub struct Noted {
    pub classes: Classes,
    pub marks: Packed,
}

// The class of the name in 17 bits: a word, and perhaps a dom.
fn class_in(t: &Catalogue, w: usize) -> u64
    requires { w < 131072 }
    ensures { result ≡ class_in t.now (resource_of (name_in w)) }
{
    let word = w / 512;
    if w / 256 % 2 == 0 {
        let alone = Name {
            first: word as u8,
            second: 255,
        };
        return t.type_of(Key::from(alone));
    }
    let dom = w % 256;
    let class = Name {
        first: dom as u8,
        second: word as u8,
    };
    t.type_of(Key::from(class))
}

// One class more, of an annotation of that kind: the type's own, or a nested one.
fn with_row(c: Classes, resources: u64, kind: Kind, class: u64) -> Classes
    ensures { GathersMore resources (eqb (number_of kind) 1) class c result }
{
    if kind == Kind::Associate {
        item_classes::with_own(c, resources, class)
    } else {
        item_classes::with_nested(c, resources, class)
    }
}

// The classes of n resources more, of an annotation of that kind. The loops here, of `gather` and of `pack_marks` count down: by
// ranges the filling of the catalogue took 3 % more.
fn with_rows(s: &[u8], t: &Catalogue, g: Gathered, n: usize, resources: u64, kind: Kind) -> Gathered
    requires addressable { Addressable s.now }
    requires names_at { NamesAt (bits_of s.now) g.at n }
    ensures { RowsGathered t.now resources (number_of kind) n (bits_of s.now) g result }
{
    let mut out = g.classes;
    let mut next = g.at;
    let mut left = n;
    while 0 < left {
        let w = sheet_peek::peek(s, next, 17);
        out = with_row(out, resources, kind, class_in(t, w));
        next = next + 9 + w / 256 % 2 * 8;
        left -= 1;
    }
    Gathered {
        classes: out,
        at: next,
    }
}

// The place behind n names.
fn skip_names(s: &[u8], at: usize, n: usize) -> usize
    requires addressable { Addressable s.now }
    requires names_at { NamesAt (bits_of s.now) at n }
    ensures { NamesSkipped n (bits_of s.now) at result }
{
    (0..n).fold(
        at,
        |next, _| next + 9 + sheet_peek::peek(s, next, 17) / 256 % 2 * 8,
    )
}

// The classes of one annotation more, and the place behind it: only an Associate and a NestAssociate list resources.
fn with_annotation(s: &[u8], t: &Catalogue, g: Gathered, resources: u64) -> Gathered
    requires addressable { Addressable s.now }
    requires annotation_at { AnnotationAt (bits_of s.now) g.at }
    ensures { AnnotationGathered t.now resources (bits_of s.now) g result }
{
    let at = g.at;
    let w = sheet_peek::peek(s, at, 7);
    let kind = Kind::of(w / 16);
    match kind {
        Kind::Associate | Kind::NestAssociate => {
            let behind = Gathered { at: at + 7, ..g };
            with_rows(s, t, behind, w % 16, resources, kind)
        }
        Kind::Inherit => {
            let next = skip_names(s, at + 7, w % 16);
            Gathered { at: next, ..g }
        }
        Kind::Alias | Kind::Derive => Gathered { at: at + 11, ..g },
        Kind::MakeList | Kind::NoDerive => Gathered { at: at + 3, ..g },
    }
}

// The classes of a type's annotations. `resources` has the types of the resource variant.
fn gather(s: &[u8], t: &Catalogue, at: usize, resources: u64) -> Gathered
    requires addressable { Addressable s.now }
    requires annotations_at { AnnotationsAt (bits_of s.now) at }
    ensures { AnnotationsGathered t.now resources (bits_of s.now) at result }
{
    let mut left = sheet_peek::peek(s, at, 4);
    let mut g = Gathered {
        classes: Classes::NONE,
        at: at + 4,
    };
    while 0 < left {
        g = with_annotation(s, t, g, resources);
        left -= 1;
    }
    g
}

// A type's marks.
fn pack_marks(s: &[u8], at: usize) -> Packed
    requires addressable { Addressable s.now }
    requires marks_at { MarksAt (bits_of s.now) at }
    ensures { MarksPacked (bits_of s.now) at result }
{
    let mut left = sheet_peek::peek(s, at, 3);
    let mut out = Packed::none();
    let mut next = at + 3;
    while 0 < left {
        let w = sheet_peek::peek(s, next, 9);
        out = item_heads::with_mark(out, (w / 256) as u8, (w % 256) as u8);
        next = next + 1 + w / 256 * 8;
        left -= 1;
    }
    out
}

// Both lists. Most types have neither: 7 bits of 0.
pub fn gather_notes(s: &[u8], t: &Catalogue, at: usize, resources: u64) -> Noted
    requires addressable { Addressable s.now }
    requires notes_at { NotesAt (bits_of s.now) at }
    ensures { NotesGathered t.now resources (bits_of s.now) at result }
{
    if sheet_peek::peek(s, at, 7) == 0 {
        return Noted {
            classes: Classes::NONE,
            marks: Packed::none(),
        };
    }
    let g = gather(s, t, at, resources);
    let classes = g.classes;
    let marks = pack_marks(s, g.at);
    Noted { classes, marks }
}
