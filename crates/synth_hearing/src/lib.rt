// Which listings of a type hand on what their parent has. A listing at which the parent is reached for the first time, and
// fails, hands on nothing, and the type itself fails; listed again, the parent hands on everything (FORMAT 8.6).
#![tactic(auto)]

ghost use Rattle.std.specs.Prelude.{◌&&◌, ◌||◌, not, ◌≡◌, ◌<◌};
ghost use Rattle.rows.specs.Rows.{has_bit};
ghost use Rattle.law_parents.specs.Placed.{ParentsBelow};
ghost use Rattle.synth_hearing.specs.Hearing.{WithFlag, FlagsOf, WithOk};

use order_form::Parents;

// Bit i is set if listing i hands on; `all` if each does. The row alone does not tell `all`: the count of the listings would have
// to stand here in its place.
#[derive(Clone, Copy)]
pub struct Flags {
    pub row: u64,
    pub all: bool,
}

// Listing i was not the first to reach its parent, or the call of the parent succeeded.
fn passes(fresh: u8, i: usize, ok: u64, place: usize) -> bool
    requires { (i < 8) × (place < 64) }
    ensures { result ≡ (not (has_bit fresh i) || has_bit ok place) }
{
    !bitsets::has(u64::from(fresh), i) || bitsets::has(ok, place)
}

// The flags with that of listing i.
#[tactic(auto, using(crate::specs::HearingLaws::one_more))]
fn with_flag(f: Flags, i: usize, handed: bool) -> Flags
    requires { i < 64 }
    ensures { WithFlag f i handed result }
{
    if handed {
        Flags {
            row: bitsets::with_one(f.row, i),
            ..f
        }
    } else {
        Flags { all: false, ..f }
    }
}

// The flags of the listings of type t.
pub fn flags_of(l: &Parents, t: usize, fresh: u8, ok: u64) -> Flags
    requires { (t < l.now.count) × ParentsBelow l.now t }
    ensures { FlagsOf l.now t fresh ok result }
{
    let mut flags = Flags { row: 0, all: true };
    for i in 0..usize::from(l.counts[t]) {
        let place = l.place(t, i);
        let handed = passes(fresh, i, ok, place);
        flags = with_flag(flags, i, handed);
    }
    flags
}

// The types whose call succeeded, with type t if all its listings hand on and its own interpretation added no row.
#[tactic(auto, using(crate::specs::HearingLaws::one_more))]
pub fn with_ok(ok: u64, t: usize, heard: bool, clean: bool) -> u64
    requires { t < 64 }
    ensures { WithOk ok t (heard && clean) result }
{
    if heard && clean {
        bitsets::with_one(ok, t)
    } else {
        ok
    }
}
