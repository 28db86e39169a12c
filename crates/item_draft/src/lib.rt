// The catalogue of a map, out of its draft and its sheet, where the names, the parents, the extension records and the order
// stand already.
#![tactic(auto)]

ghost use Rattle.std.specs.Prelude.{◌≤◌};
ghost use Rattle.definitions.specs.Bits.{bits_of};
ghost use Rattle.bits.specs.Reading.{Addressable};
ghost use Rattle.item_entries.specs.Entries.{RowsThere};
ghost use Rattle.item_draft.specs.Parts.{HeadOf, HeadsPut, NotesReady, NotesPut};
ghost use Rattle.item_draft.specs.Fill.{Fillable, Fills};

use catalogue::Catalogue;
use order_rounds::Order;
use sheet_order::ByName;

// What is known where there is an order: how many words are the last of a name, and the types that are a parent.
#[derive(Clone, Copy)]
pub struct Placing {
    pub words: usize,
    pub childed: u64,
}

// A head in 8 bits. The decoder puts no other into the draft; of larger numbers the variant is that past the last.
#[tactic(auto, using(crate::specs::PartLaws::head_same, crate::specs::PartLaws::head_past))]
fn head_in_bits(h: u64) -> u64
    ensures { HeadOf h result }
{
    if h < 256 {
        return h;
    }
    128 + h % 64
}

// The head of each type. The answer has the types of the resource variant.
fn put_heads(t: &mut Catalogue, x: ByName) -> u64
    requires { (x.read.count ≤ 64) × RowsThere x.entries.now x.read.count }
    ensures { HeadsPut x.entry.draft.now x.entry.entries.now x.entry.read.count t.old t.new result }
{
    let mut resources: u64 = 0;
    for a in 0..x.read.count {
        let head = head_in_bits(x.row(a).head);
        t.heads[a] = head;
        resources = item_heads::with_resource(resources, a, (head / 64) as usize);
    }
    resources
}

// The own classes and the marks of each type; the classes that it gives go into `given`. The answer says whether a class of a
// type is lost, or an own class stands twice.
fn put_notes(t: &mut Catalogue, s: &[u8], x: ByName, given: &mut [u64; 64]) -> bool
    requires addressable { Addressable s.now }
    requires notes_ready { NotesReady (bits_of s.now) x.draft.now x.entries.now t.old x.read.count }
    ensures { NotesPut (bits_of s.now) x.entry.draft.now x.entry.entries.now x.entry.read.count t.old t.new given.new result }
{
    let resources = t.resources;
    let childed = t.childed;
    let mut lost = false;
    for a in 0..x.read.count {
        let notes = item_notes::gather_notes(s, t, x.row(a).place, resources);
        let classes = notes.classes;
        t.own[a] = classes.own;
        t.marks[a] = notes.marks;
        given[a] = classes.given;
        lost = item_sets::is_lost(lost, classes, childed, a);
    }
    lost
}

// The whole catalogue. The answer says whether a class of a type is lost, or an own class stands twice: then a type is refused.
pub fn fill(t: &mut Catalogue, s: &[u8], x: ByName, order: &Order, o: Placing) -> bool
    requires addressable { Addressable s.now }
    requires fillable { Fillable (bits_of s.now) x.draft.now x.entries.now order.now t.old x.read o }
    ensures { Fills (bits_of s.now) x.entry.draft.now x.entry.entries.now order.now t.old x.entry.read o t.new result }
{
    let n = x.read;
    let resources = put_heads(t, x);
    let extended = item_sets::extended_by(t, n.extensions);
    t.count = n.count;
    t.word_count = o.words;
    t.extension_count = n.extensions;
    t.extended = extended;
    t.resource = n.resource as u64;
    t.resources = resources;
    t.childed = o.childed;
    t.width = n.width;
    t.hyphens = n.hyphens;
    let mut given = [0u64; 64];
    let lost = put_notes(t, s, x, &mut given);
    item_sets::spread(t, &given, order);
    lost
}
