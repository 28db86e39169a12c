// What a word's classes come to, and the rows of kinds 4, 5 and 6, after `interpret_associate` of compile.rs.
#![tactic(auto)]

ghost use Rattle.std.specs.Prelude.{find, map, ◌≡◌, ◌<◌};
ghost use Rattle.rows.specs.Rows.{has};
ghost use Rattle.rows.specs.Lists.{below};
ghost use Rattle.synth_classes.specs.Classes.{unknown_at, other_at};
ghost use Rattle.emitting.specs.Writing.{state, Adds};
ghost use Rattle.synth_interpretation.specs.Emit.{emit_bytes, Emits, bytes_of};
ghost use Rattle.synth_interpretation.specs.Judged.{unknown_doms, unknown_row};

use catalogue::Catalogue;
use emitting::{Kind, Writer};
use fields::Name;
use rows::Row;
use synth_classes::{Doms, Site};

// Why a word of a type makes no resource (FORMAT 8.10).
#[derive(Clone, Copy)]
pub enum Reason {
    // The class is not declared: kind 4.
    Unknown(Name),
    // The class is declared with another variant than a resource's: kind 5.
    NoResource(Name),
    // T.r is declared, or was made before: kind 6.
    Duplicate,
}

// Writes the row of a type and a word (FORMAT 8.1).
pub fn put_reason(out: &mut Writer<'_>, subject: Name, reason: Reason, word: u8)
    ensures { Adds out.old out.new (emit_bytes out.old.limit (state out.old) (bytes_of subject reason word)) }
{
    let (kind, other) = match reason {
        Reason::Unknown(class) => (Kind::UndeclaredClass, Some(class)),
        Reason::NoResource(class) => (Kind::NoResource, Some(class)),
        Reason::Duplicate => (Kind::Duplicate, None),
    };
    let row = emitting::Row {
        kind,
        subject,
        other,
        word: Some(word),
    };
    out.push(row);
}

// Whether the class of a word and a dom is not declared.
pub fn is_unknown(t: &Catalogue, word: u8, dom: u8) -> bool
    requires { word < 255 }
    ensures { result ≡ unknown_at t.now word dom }
{
    synth_classes::class_place(t, dom as usize, word).is_none()
}

// The first dom whose class is not declared (FORMAT 8.10).
pub fn first_unknown(t: &Catalogue, doms: Row, word: u8) -> Option<u8>
    requires { word < 255 }
    ensures { result ≡ find (unknown_at t.now word) (below (has doms) 201) }
{
    Doms::of(doms).find(|dom| is_unknown(t, word, *dom))
}

// Whether the class of a word and a dom is declared with another variant than a resource's.
#[tactic(auto, using(crate::specs::JudgedLaws::other_place, crate::specs::JudgedLaws::other_none))]
fn is_other(t: &Catalogue, word: u8, dom: u8) -> bool
    requires { word < 255 }
    ensures { result ≡ other_at t.now word dom }
{
    synth_classes::class_place(t, dom as usize, word).is_some_and(|place| t.heads[place] / 64 != 1)
}

// The first dom whose class has another variant than a resource's (FORMAT 8.10).
pub fn first_other(t: &Catalogue, doms: Row, word: u8) -> Option<u8>
    requires { word < 255 }
    ensures { result ≡ find (other_at t.now word) (below (has doms) 201) }
{
    Doms::of(doms).find(|dom| is_other(t, word, *dom))
}

// A row of kind 4 for each unknown class, with the class as the other name (FORMAT 8.10).
#[tactic(auto, using(crate::specs::JudgedLaws::written_steps))]
pub fn unknown_rows(t: &Catalogue, site: Site, doms: Row, out: &mut Writer<'_>)
    ensures { Emits out.old out.new (map (unknown_row t.now site.place site.word) (unknown_doms t.now doms site.word)) }
{
    let subject = synth_classes::name_at(t, site.place);
    for dom in Doms::of(doms) {
        if is_unknown(t, site.word, dom) {
            let class = synth_classes::class_name(dom as usize, site.word);
            put_reason(out, subject, Reason::Unknown(class), site.word);
        }
    }
}
