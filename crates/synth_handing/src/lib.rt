// What a type inherits from its listed parents: from each its own associates, then what it inherits itself, which is kept in
// a store of all types.
#![tactic(auto)]

ghost use Rattle.std.specs.Prelude.{◌≡◌, ◌<◌};
ghost use Rattle.bits.specs.Reading.{Addressable};
ghost use Rattle.definitions.specs.Bits.{bits_of};
ghost use Rattle.synth_own.specs.Owning.{OwnFit};
ghost use Rattle.synth_handing.specs.Handing.{Takes, Ready, Gathered, KeepsIt};

use order_form::Parents;
use synth_dedup::Inherited;
use synth_own::Location;
use synth_store::Saved;

// One parent more: its own associates, where they stand, then what it inherits itself, all under its place.
fn inherit_from(h: &mut Inherited, s: &[u8], x: Option<Location>, saved: &Saved, place: usize)
    requires addressable { Addressable s.now }
    requires low { place < 64 }
    requires own_fit { OwnFit (bits_of s.now) x }
    ensures { Takes h.old (bits_of s.now) x saved.now place h.new }
{
    let own = synth_own::own_associates(s, x);
    let p = saved.fetch();
    let parent = bitsets::with_one(0, place);
    synth_inheritance::inherit_parent(h, own.as_slice(), &p, parent);
}

// The same, but one without annotations that inherits nothing hands on nothing.
fn inherit_any(h: &mut Inherited, s: &[u8], x: Option<Location>, saved: &Saved, place: usize)
    requires addressable { Addressable s.now }
    requires low { place < 64 }
    requires own_fit { OwnFit (bits_of s.now) x }
    ensures { Takes h.old (bits_of s.now) x saved.now place h.new }
{
    if x.is_none() && saved.words.count == 0 {
        return;
    }
    inherit_from(h, s, x, saved, place);
}

// What the listed parents of type t with a flag hand on, in their order, as the dedup leaves it. A listing at which the call
// of the parent failed has no flag (FORMAT 8.6). `inline(never)`: as in `synth_dedup`.
#[inline(never)]
pub fn gather(
    s: &[u8],
    l: &Parents,
    notes: &[Option<Location>; 64],
    store: &[Saved; 64],
    t: usize,
    flags: u64,
) -> Inherited
    requires addressable { Addressable s.now }
    requires ready { Ready l.now (bits_of s.now) notes.now store.now t flags }
    ensures { Gathered l.now (bits_of s.now) notes.now store.now t flags result }
{
    let mut out = synth_dedup::nothing();
    for i in 0..usize::from(l.counts[t]) {
        if bitsets::has(flags, i) {
            let place = l.place(t, i);
            inherit_any(&mut out, s, notes[place], &store[place], place);
        }
    }
    out
}

// What all listed parents of type t hand on, put at its place in the store. It lists at most eight.
pub fn keep_inherited(
    s: &[u8],
    l: &Parents,
    notes: &[Option<Location>; 64],
    store: &mut [Saved; 64],
    t: usize,
) -> Inherited
    requires addressable { Addressable s.now }
    requires ready { Ready l.now (bits_of s.now) notes.now store.old t 255 }
    ensures { KeepsIt l.now (bits_of s.now) notes.now store.old t store.new result }
{
    let all = gather(s, l, notes, store, t, 255);
    store[t] = Saved::of(&all);
    all
}
