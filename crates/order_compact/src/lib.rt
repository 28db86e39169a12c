// The compact form of a map, out of its draft.
#![tactic(auto)]

ghost use Rattle.std.specs.Prelude.{◌≤◌, ◌<◌};
ghost use Rattle.sheet_draft.specs.Draft.{key_at, parent_count_at};
ghost use Rattle.catalogue.specs.Layout.{looked};
ghost use Rattle.order_parents.specs.Parents.{KeysOf};
ghost use Rattle.order_compact.specs.Compact.{PlaceIs, Drafts, TypePut};
ghost use Rattle.order_compact.specs.Reading.{Compacts};

use catalogue::Catalogue;
use order_form::Parents;
use sheet_draft::Draft;
use sheet_order::ByName;

// The place of the type that has a key, as the `place` of a listed parent: `count` where no type has it (FORMAT 1.5).
fn place_of(t: &Catalogue, key: u64, count: usize) -> usize
    requires { (key < 65536) × (count ≤ 64) }
    ensures { PlaceIs (looked t.now key) count result × (result ≤ 64) }
{
    let types = t.type_of(key);
    if types == 0 {
        return count;
    }
    bitsets::lowest(types)
}

// Type a, which is in a row of the draft: its name and the parents that it lists.
#[tactic(auto, using(crate::specs::FillLaws::type_start, crate::specs::FillLaws::type_more))]
fn put_type(l: &mut Parents, t: &Catalogue, d: &Draft, row: usize, a: usize, count: usize)
    requires bounds { (a < 64) × (key_at d.now row < 65536) × (count ≤ 64) }
    requires keys_of { KeysOf d.now row }
    ensures { TypePut t.now d.now row a count (parent_count_at d.now row) l.old l.new }
{
    let many = d.parent_count(row);
    order_table::put_name(l, a, d.rows[row].key);
    l.counts[a] = many as u16;
    for k in 0..many {
        let key = d.parent(row, k);
        let place = place_of(t, key, count);
        order_table::put_parent(l, a, k, key, place);
    }
}

// The compact form of the map that the draft has; the catalogue has the names of its types.
pub fn fill(l: &mut Parents, t: &Catalogue, x: ByName)
    requires { Drafts x.draft.now x.entries.now x.read.count }
    ensures { Compacts t.now x.entry.draft.now x.entry.entries.now x.entry.read.count x.entry.read.own l.new }
{
    l.self_word = x.read.own;
    for a in 0..x.read.count {
        put_type(l, t, x.draft, x.entries[a].row, a, x.read.count);
    }
    // Last: each type below the count lists at most eight parents, which holds once it is put.
    l.count = x.read.count;
}
