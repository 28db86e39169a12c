// The classes of a type's annotations, as sets of types: those of its own Associates, and those that it gives at all.
#![tactic(auto)]

ghost use Rattle.std.specs.Prelude.{true, false};
ghost use Rattle.item_classes.specs.Classes.{GathersMore};

// The classes found so far. `wrong`: an own class is no declared resource, or stands twice. `missing`: a given class is none.
#[derive(Clone, Copy)]
pub struct Classes {
    pub own: u64,
    pub given: u64,
    pub wrong: bool,
    pub missing: bool,
}

impl Classes {
    // No class yet.
    pub const NONE: Classes = Classes {
        own: 0,
        given: 0,
        wrong: false,
        missing: false,
    };
}

// One class more, of an own Associate.
#[tactic(auto, using(crate::specs::ClassLaws::gathers_own))]
pub fn with_own(c: Classes, resources: u64, class: u64) -> Classes
    ensures { GathersMore resources true class c result }
{
    let lost = class & resources == 0;
    let twice = c.own & class != 0;
    Classes {
        own: c.own | class,
        given: c.given | class,
        wrong: c.wrong | lost | twice,
        missing: c.missing | lost,
    }
}

// One class more, of a nested Associate.
#[tactic(auto, using(crate::specs::ClassLaws::gathers_nested))]
pub fn with_nested(c: Classes, resources: u64, class: u64) -> Classes
    ensures { GathersMore resources false class c result }
{
    let lost = class & resources == 0;
    Classes {
        given: c.given | class,
        missing: c.missing | lost,
        ..c
    }
}
