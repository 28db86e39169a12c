// A type's own associate.
ghost use Rattle.std.specs.Prelude.{◌≡◌, true, ℕ, ◌<◌, ltb, take, get_or};
ghost use Rattle.lists.specs.Lists.{ascends};
ghost use Rattle.synth_inheritance.specs.Kinds.{is_handed_on};

use synth_annotations::AnnotationInfo;

// An Associate or a NestAssociate, its words ascending.
#[derive(Clone, Copy)]
pub struct OwnAssociate {
    pub info: AnnotationInfo,
    pub ghost associate: { is_handed_on info.kind ≡ true },
    pub ghost below: { (i : ℕ) → i < info.count → get_or info.words i 0 < 200 },
    pub ghost ascending: { ascends ltb (take info.count info.words) ≡ true },
}
