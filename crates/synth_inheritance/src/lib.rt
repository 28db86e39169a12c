// What a type inherits from one parent: the parent's own associates, then what the parent itself inherits, after
// `inherit_annotations`.
#![tactic(auto)]

ghost use Rattle.std.specs.Prelude.{◌≡◌, length};
ghost use Rattle.synth_inheritance.specs.Kinds.{inherited_kind};
ghost use Rattle.synth_inheritance.specs.Own.{WordsOf, DomsWith, JoinsOwn, JoinsOwns, JoinsParent};

mod own;

pub use own::OwnAssociate;
use rows::Row;
use sheet_records::Kind;
use synth_dedup::{Entry, Inherited};

// The words of an associate, as a row of bits.
pub fn words_of(a: OwnAssociate) -> Row
    ensures { WordsOf a.info result }
{
    let mut row = rows::empty_row();
    for w in &a.info.words[..a.info.count] {
        let one = rows::alone(usize::from(*w));
        row = rows::in_either(row, one);
    }
    row
}

// The dom sets of the associate join those of the list, at its words.
pub fn doms_with(doms: &[Row; 200], a: OwnAssociate) -> [Row; 200]
    ensures { DomsWith doms.now a.info result }
{
    let words = &a.info.words[..a.info.count];
    let mut out = *doms;
    for (w, given) in words.iter().zip(a.info.doms.iter()) {
        let w = usize::from(*w);
        out[w] = rows::in_either(out[w], *given);
    }
    out
}

// The kind under which an annotation is inherited: a NestAssociate is handed on as an Associate (FORMAT 8.7).
fn inherited_kind(kind: Kind) -> Kind
    ensures { result ≡ inherited_kind kind }
{
    match kind {
        Kind::NestAssociate => Kind::Associate,
        Kind::MakeList
        | Kind::Associate
        | Kind::Alias
        | Kind::Inherit
        | Kind::Derive
        | Kind::NoDerive => kind,
    }
}

// A parent's own associate joins what is inherited. `inline(never)`: as in `synth_dedup`.
#[inline(never)]
pub fn inherit_own(h: &mut Inherited, a: OwnAssociate, parent: u64)
    ensures { JoinsOwn h.old a.info parent h.new }
{
    let words = words_of(a);
    let kind = inherited_kind(a.info.kind);
    let n = Entry {
        kind,
        words,
        parents: parent,
    };
    h.list = synth_dedup::dedup_inherited_annotations_one(&h.list, n);
    h.doms = doms_with(&h.doms, a);
}

// A parent's own associates join, in their order.
pub fn inherit_owns(h: &mut Inherited, own: &[OwnAssociate], parent: u64)
    ensures { JoinsOwns h.old own.now (length own.now) parent h.new }
{
    for a in own {
        inherit_own(h, *a, parent);
    }
}

// One parent more: its own associates, then what it inherits itself, all under it.
pub fn inherit_parent(h: &mut Inherited, own: &[OwnAssociate], p: &Inherited, parent: u64)
    ensures { JoinsParent h.old own.now (length own.now) p.now parent h.new }
{
    inherit_owns(h, own, parent);
    synth_dedup::dedup_inherited_annotations(h, p, parent);
}
