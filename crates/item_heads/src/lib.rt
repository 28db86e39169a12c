// The set of the resources, and the marks of a type as bits.
#![tactic(auto)]

ghost use Rattle.std.specs.Prelude.{◌<◌};
ghost use Rattle.item_heads.specs.Heads.{WithMark, WithResource};

mod packed;

pub use packed::Packed;

// A set with the type a, if its variant is that of a resource. The variant is two bits of a head: an enum made of them would be
// asked for this case alone, since what else asks for resources asks the set.
pub fn with_resource(set: u64, a: usize, variant: usize) -> u64
    requires { a < 64 }
    ensures { WithResource set a variant result }
{
    if variant == 1 {
        return bitsets::with_one(set, a);
    }
    set
}

// One mark behind the others: a 0, or a 1 and the 8 bits of the tag. `derive` and `tag` are the bits of a window: `sheet_records::Mark`
// would be made of them only to be taken apart here.
#[tactic(auto, using(crate::specs::HeadLaws::list_less, crate::specs::HeadLaws::packs_derive, crate::specs::HeadLaws::packs_full, crate::specs::HeadLaws::packs_list))]
pub fn with_mark(p: Packed, derive: u8, tag: u8) -> Packed
    ensures { WithMark p derive tag result }
{
    // A type has at most 7 marks (FORMAT 2.9); what would be an eighth is none.
    if p.count == 7 {
        return p;
    }
    if derive == 1 {
        return Packed {
            bits: p.bits * 512 + 256 + tag as u64,
            width: p.width + 9,
            count: p.count + 1,
        };
    }
    Packed {
        bits: p.bits * 2,
        width: p.width + 1,
        count: p.count + 1,
    }
}
