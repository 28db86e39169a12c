// What the annotations of one type come to, after `interpret_associate` and `interpret_inherited_annotations` of compile.rs.
#![tactic(auto)]

ghost use Rattle.std.specs.Prelude.{◌&&◌, not, [], ◌∷◌, ◌≡◌, ◌+◌, ◌≤◌, ◌<◌};
ghost use Rattle.synth_dedup.specs.Reading.{inherited_of};
ghost use Rattle.synth_associates.specs.Step.{failed_in, begun, reached};
ghost use Rattle.synth_interpreting.specs.Entry.{EntryReady, EntryDone};
ghost use Rattle.synth_interpreting.specs.Annotations.{plain_of, own_entries_in, Added, WithEntry, TypeReady, TypeDone};

use bounded::UpTo;
use catalogue::Catalogue;
use emitting::Writer;
use rows::Row;
use sheet_records::Kind;
use synth_associates::Standing;
use synth_classes::{Numbers, Origin, Site};
use synth_dedup::{Entry, Inherited};
use synth_duplicates::{Making, Makings};
use synth_inheritance::OwnAssociate;
use synth_own::OwnAssociates;

// A sheet has at most as many words (FORMAT 1.2).
const MOST_WORDS: usize = 200;

// The words of a row.
type Words = Numbers<MOST_WORDS>;

// A type as far as it is interpreted: whether its annotations added no row, and its makings. The catalogue, the place and the
// writer stay parameters: a struct that lends the writer on would have each function say that what it lends stays as it was, and
// all that is called below asks for a catalogue and a `Site`, so that one of catalogue and place would be taken apart each time.
#[derive(Clone, Copy)]
pub struct Progress {
    pub clean: bool,
    pub made: Makings,
}

// One annotation, its words ascending, as far as it goes.
#[tactic(auto, using(synth_classes::specs::Numbers::number_below, crate::specs::EntryLaws::going_room))]
pub fn interpret_associate(
    t: &Catalogue,
    place: usize,
    e: Entry,
    doms: &[Row; 200],
    made: &mut Makings,
    out: &mut Writer<'_>,
) -> Standing
    requires { EntryReady place e made.old }
    ensures { EntryDone t.now place e doms.now (begun made.old) out.old (reached result made.new) out.new }
{
    let mut standing = Standing::Going;
    for word in Words::of(e.words) {
        if standing == Standing::Ended {
            return standing;
        }
        let site = Site { place, word };
        let origin = Origin {
            doms: doms[word as usize],
            parents: e.parents,
        };
        standing = synth_associates::interpret_word(t, site, origin, standing, made, out);
    }
    standing
}

// Whether a type that was clean is so behind an annotation.
fn still_clean(clean: bool, standing: Standing) -> bool
    ensures { result ≡ (clean && not (failed_in standing)) }
{
    clean && standing == Standing::Going
}

// One annotation more.
fn with_entry(
    t: &Catalogue,
    place: usize,
    e: Entry,
    doms: &[Row; 200],
    p: &mut Progress,
    out: &mut Writer<'_>,
)
    requires { EntryReady place e p.old.made }
    ensures { WithEntry t.now place e doms.now p.old out.old p.new out.new }
{
    let standing = interpret_associate(t, place, e, doms, &mut p.made, out);
    p.clean = still_clean(p.clean, standing);
}

// One own associate more. An Associate is an annotation without parents; a NestAssociate is not interpreted.
fn interpret_own(
    t: &Catalogue,
    place: usize,
    a: OwnAssociate,
    p: &mut Progress,
    out: &mut Writer<'_>,
)
    requires place_bound { place < 64 }
    requires room { p.old.made.count + 15 ≤ 380 }
    ensures { Added t.now place (λ ns. plain_of (a ∷ [])) 15 p.old out.old p.new out.new }
{
    if a.info.kind != Kind::Associate {
        return;
    }
    let words = synth_inheritance::words_of(a);
    let none = synth_dedup::no_doms();
    let doms = synth_inheritance::doms_with(&none, a);
    let e = Entry {
        kind: a.info.kind,
        words,
        parents: 0,
    };
    with_entry(t, place, e, &doms, p, out);
}

// The type's own associates one after the other, in their order (FORMAT 8.6, 8.7).
fn interpret_owns(
    t: &Catalogue,
    place: usize,
    own: &OwnAssociates,
    p: &mut Progress,
    out: &mut Writer<'_>,
)
    requires place_bound { place < 64 }
    requires room { p.old.made.count + 180 ≤ 380 }
    ensures { Added t.now place (λ ns. own_entries_in own.now) 180 p.old out.old p.new out.new }
{
    for a in own.as_slice() {
        interpret_own(t, place, *a, p, out);
    }
}

// What the type inherits, in the order in which the dedup left it (FORMAT 8.6, 8.9).
fn interpret_extra(
    t: &Catalogue,
    place: usize,
    h: &Inherited,
    p: &mut Progress,
    out: &mut Writer<'_>,
)
    requires place_bound { place < 64 }
    requires room { p.old.made.count + 200 ≤ 380 }
    ensures { Added t.now place (λ ns. inherited_of ns h.now) 200 p.old out.old p.new out.new }
{
    for e in h.list.as_slice() {
        with_entry(t, place, *e, &h.doms, p, out);
    }
}

// All annotations of the type at a place: its own associates, and what it inherits. Whether they added no row. `inline(never)`: as
// in `synth_dedup`.
#[inline(never)]
pub fn interpret_inherited_annotations(
    t: &Catalogue,
    place: usize,
    own: &OwnAssociates,
    h: &Inherited,
    out: &mut Writer<'_>,
) -> bool
    requires { TypeReady place own.now h.now }
    ensures { TypeDone t.now place own.now h.now out.old result out.new }
{
    if own.count == 0 && h.list.count == 0 {
        return true;
    }
    let mut p = Progress {
        clean: true,
        made: UpTo::new(Making::BLANK),
    };
    interpret_owns(t, place, own, &mut p, out);
    interpret_extra(t, place, h, &mut p, out);
    p.clean
}
