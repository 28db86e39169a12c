// The synthesis of a map that has an order, and the rows of refusal 9, after `inherit_annotations` and
// `apply_associate_annotations` of compile.rs.
#![tactic(auto)]

ghost use Rattle.std.specs.Prelude.{◌≡◌, ◌*◌, ◌≤◌, length, get_or};
ghost use Rattle.bits.specs.Reading.{Addressable};
ghost use Rattle.definitions.specs.Bits.{bits_of};
ghost use Rattle.definitions.specs.Records.{Sheet};
ghost use Rattle.synth_handing.specs.Handing.{Ready};
ghost use Rattle.synthesis.specs.Playing.{Flagged, Receives, Turn, Plays, AllReady, AllPlayed};
ghost use Rattle.synthesis.specs.Synthesized.{Synthesizes, Synthesized};

use catalogue::Catalogue;
use emitting::{Report, Writer};
use order_form::Parents;
use synth_dedup::Inherited;
use synth_hearing::Flags;
use synth_own::Location;
use synth_store::Saved;
use synth_visiting::Trail;

// The tables of a map, lent: the sheet, its catalogue, its order, and where the annotations of each type stand in the sheet.
#[derive(Clone, Copy)]
struct Tables<'a> {
    sheet: &'a [u8],
    catalogue: &'a Catalogue,
    order: &'a Parents,
    notes: &'a [Option<Location>; 64],
    ghost countable: { Addressable sheet.now },
}

// A type at its turn: its place, which of its listings were the first to reach their parent, as bits, and the types whose call
// succeeded by then, as bits.
#[derive(Clone, Copy)]
pub struct Visit {
    pub place: usize,
    pub fresh: u8,
    pub ok: u64,
}

// What type t gets from the listings with a flag. What it inherits where all hand on is kept for its children: it is the same
// where no call failed.
fn receive(m: Tables, store: &mut [Saved; 64], t: usize, flags: Flags) -> Inherited
    requires ready { Ready m.order.now (bits_of m.sheet.now) m.notes.now store.old t 255 }
    requires flagged { Flagged m.order.now t flags }
    ensures { Receives m.entry.order.now (bits_of m.entry.sheet.now) m.entry.notes.now store.old t flags store.new result }
{
    if flags.all {
        return synth_handing::keep_inherited(m.sheet, m.order, m.notes, store, t);
    }
    let got = synth_handing::gather(m.sheet, m.order, m.notes, store, t, flags.row);
    synth_handing::keep_inherited(m.sheet, m.order, m.notes, store, t);
    got
}

// A type takes what its parents hand on and is interpreted; its parents were, in the loop that calls this and not by recursion.
// The types whose call succeeded, as bits. `inline(never)`: as in `synth_dedup`.
#[inline(never)]
fn inherit_annotations(m: Tables, store: &mut [Saved; 64], out: &mut Writer<'_>, v: Visit) -> u64
    requires { Turn m.catalogue.now (bits_of m.sheet.now) m.notes.now m.order.now store.old v.place }
    ensures { Plays m.entry.catalogue.now (bits_of m.entry.sheet.now) m.entry.notes.now m.entry.order.now store.old out.old v store.new out.new result }
{
    let place = v.place;
    let flags = synth_hearing::flags_of(m.order, place, v.fresh, v.ok);
    let got = receive(m, store, place, flags);
    let own = synth_own::own_associates(m.sheet, m.notes[place]);
    let clean = synth_interpreting::interpret_inherited_annotations(
        m.catalogue,
        place,
        &own,
        &got,
        out,
    );
    synth_hearing::with_ok(v.ok, place, flags.all, clean)
}

// The types in the order in which they are reached. One past the limit what is written stays as it is, so that no type more is
// played.
fn play_all(m: Tables, store: &mut [Saved; 64], out: &mut Writer<'_>, trail: Trail)
    requires { AllReady m.catalogue.now (bits_of m.sheet.now) m.notes.now m.order.now out.old trail }
    ensures { AllPlayed m.entry.catalogue.now (bits_of m.entry.sheet.now) m.entry.notes.now m.entry.order.now out.old trail out.new }
{
    let mut ok: u64 = 0;
    for arrival in trail.arrivals.as_slice() {
        if out.is_over() {
            return;
        }
        let v = Visit {
            place: arrival.place as usize,
            fresh: arrival.fresh,
            ok,
        };
        ok = inherit_annotations(m, store, out, v);
    }
}

// The same in a store for 64 types.
fn play(m: Tables, out: &mut Writer<'_>, trail: Trail)
    requires { AllReady m.catalogue.now (bits_of m.sheet.now) m.notes.now m.order.now out.old trail }
    ensures { AllPlayed m.entry.catalogue.now (bits_of m.entry.sheet.now) m.entry.notes.now m.entry.order.now out.old trail out.new }
{
    let mut store = [Saved::nothing(); 64];
    play_all(m, &mut store, out, trail);
}

// The rows of refusal 9: the first `limit` are written, and no other byte changes (FORMAT 8.2).
pub fn apply_associate_annotations(
    s: &[u8],
    t: &Catalogue,
    l: &Parents,
    notes: &[Option<Location>; 64],
    diagnosis: &mut [u8],
    limit: usize,
) -> Report
    requires addressable { Addressable s.now }
    requires synthesizes { (x : Sheet) × Synthesizes x t.now (bits_of s.now) notes.now l.now }
    requires rows_in_bounds { 6 * limit ≤ length diagnosis.old }
    ensures { Synthesized t.now (bits_of s.now) notes.now l.now limit diagnosis.old diagnosis.new result.rows result.more }
{
    let trail = synth_visiting::trail_of(l);
    let tables = Tables {
        sheet: s,
        catalogue: t,
        order: l,
        notes,
    };
    let mut out = Writer::new(diagnosis, limit);
    play(tables, &mut out, trail);
    out.report()
}
