// One word of an annotation, which `interpret_associate` of compile.rs goes through.
#![tactic(auto)]

ghost use Rattle.std.specs.Prelude.{true, ◌≡◌, ◌<◌};
ghost use Rattle.lists.specs.Lists.{null};
ghost use Rattle.synth_interpretation.specs.Judged.{unknown_doms};
ghost use Rattle.synth_associates.specs.Step.{begun, reached, Stepped};

use catalogue::Catalogue;
use emitting::Writer;
use synth_classes::{Origin, Site};
use synth_duplicates::{Making, Makings};
use synth_interpretation::Reason;

// How an annotation stands (FORMAT 8.10).
#[derive(Clone, Copy, PartialEq, Eq)]
pub enum Standing {
    // No row stands.
    Going,
    // A row of kind 5 or 6 stands: it ends at the next word.
    Failed,
    Ended,
}

// A word whose classes are all declared: a row of kind 5 for its first class of another variant, else one of kind 6 for a
// duplicate, else its making (FORMAT 8.10).
fn interpret_known(
    t: &Catalogue,
    site: Site,
    origin: Origin,
    made: &mut Makings,
    out: &mut Writer<'_>,
) -> Standing
    requires room { made.old.count < 380 }
    requires word_value { null (unknown_doms t.now origin.doms site.word) ≡ true }
    ensures { Stepped t.now site origin (begun made.old) out.old (reached result made.new) out.new }
{
    let subject = synth_classes::name_at(t, site.place);
    if let Some(dom) = synth_interpretation::first_other(t, origin.doms, site.word) {
        let class = synth_classes::class_name(dom as usize, site.word);
        synth_interpretation::put_reason(out, subject, Reason::NoResource(class), site.word);
        return Standing::Failed;
    }
    if synth_duplicates::is_duplicate(t, site, origin, made) {
        synth_interpretation::put_reason(out, subject, Reason::Duplicate, site.word);
        return Standing::Failed;
    }
    made.push(Making {
        word: site.word,
        origin,
    });
    Standing::Going
}

// One word of an annotation (FORMAT 8.10). Unknown classes have their rows and end the annotation. Behind a word with a row
// of kind 5 or 6 the annotation ends as well, at the next word, whose unknown classes still have theirs.
pub fn interpret_word(
    t: &Catalogue,
    site: Site,
    origin: Origin,
    s: Standing,
    made: &mut Makings,
    out: &mut Writer<'_>,
) -> Standing
    requires room { made.old.count < 380 }
    ensures { Stepped t.now site origin (reached s made.old) out.old (reached result made.new) out.new }
{
    if synth_interpretation::first_unknown(t, origin.doms, site.word).is_some() {
        synth_interpretation::unknown_rows(t, site, origin.doms, out);
        return Standing::Ended;
    }
    match s {
        Standing::Going => interpret_known(t, site, origin, made, out),
        Standing::Failed | Standing::Ended => Standing::Ended,
    }
}
