// Where the annotations of each type stand in the sheet, in name order: the synthesis reads them there, those of one type at a
// time.
#![tactic(auto)]

ghost use Rattle.std.specs.Prelude.{◌<◌};
ghost use Rattle.definitions.specs.Bits.{bits_of};
ghost use Rattle.synth_own.specs.Owning.{Noted};
ghost use Rattle.sheet_draft.specs.Draft.{notes_at};
ghost use Rattle.item_entries.specs.Entries.{row_in};
ghost use Rattle.synth_places.specs.Places.{ReadAt, Readable, Located};

use sheet_order::ByName;
use synth_own::Location;

// Where the annotations of the type at a place in name order stand, if it has any.
#[tactic(auto, using(crate::specs::PlaceLaws::none_there, crate::specs::PlaceLaws::some_there))]
fn location_of(s: &[u8], x: ByName, a: usize) -> Option<Location>
    requires bounds { (a < 64) × (row_in x.entries.now a < 64) × (x.read.width < 256) }
    requires read_at { ReadAt x.read.width (bits_of s.now) x.draft.now (row_in x.entries.now a) }
    ensures { Noted (bits_of s.now) result (notes_at x.entry.read.width (bits_of s.now) x.entry.draft.now (row_in x.entry.entries.now a)).annotations }
{
    let row = x.row(a);
    if sheet_peek::peek(s, row.place, 4) == 0 {
        return None;
    }
    Some(Location {
        at: row.place,
        words: x.read.width as u8,
        single: row.key % 256 == 0,
    })
}

// Those of all types.
#[tactic(auto, using(crate::specs::PlaceLaws::located_more))]
pub fn fill(out: &mut [Option<Location>; 64], s: &[u8], x: ByName)
    requires width_bound { x.read.width < 256 }
    requires readable { Readable x.read.width (bits_of s.now) x.draft.now x.entries.now x.read.count }
    ensures { Located x.entry.read.width (bits_of s.now) x.entry.draft.now x.entry.entries.now x.entry.read.count out.new }
{
    for a in 0..x.read.count {
        out[a] = location_of(s, x, a);
    }
}
