// The names of the types in the catalogue, out of the entries of a draft in name order.
#![tactic(auto)]

ghost use Rattle.std.specs.Prelude.{◌≤◌};
ghost use Rattle.item_names.specs.Names.{KeysPut, SetsPut, NoSets, NamesPut};
ghost use Rattle.item_entries.specs.Entries.{firsts_of, seconds_of, KeysFit, SetsCleared};

use catalogue::Catalogue;
use fields::Name;
use sheet_order::ByName;

// No type stands in the sets of the words.
fn clear_sets(t: &mut Catalogue)
    ensures { SetsCleared 256 t.old t.new }
{
    t.firsts = [0; 256];
    t.seconds = [0; 256];
}

// The key of each type's name.
fn put_keys(t: &mut Catalogue, x: ByName)
    requires keys_fit { KeysFit x.entries.now x.read.count }
    ensures { KeysPut (firsts_of x.entry.entries.now) (seconds_of x.entry.entries.now) x.entry.read.count t.old t.new }
{
    for a in 0..x.read.count {
        t.keys[a] = x.entries[a].key;
    }
}

// Each type goes into the sets of its words, which were empty.
fn put_sets(t: &mut Catalogue, x: ByName)
    requires no_sets { NoSets t.old }
    requires keys_fit { KeysFit x.entries.now x.read.count }
    ensures { SetsPut (firsts_of x.entry.entries.now) (seconds_of x.entry.entries.now) x.entry.read.count t.old t.new }
{
    for a in 0..x.read.count {
        let name = Name::from(x.entries[a].key);
        item_names::mark_name(t, a, name);
    }
}

// All that the catalogue has of the names, whatever stood in it before. The answer says how many words are the last of a name.
pub fn put_names(t: &mut Catalogue, x: ByName) -> usize
    requires keys_fit { KeysFit x.entries.now x.read.count }
    requires width_bound { x.read.width ≤ 200 }
    ensures { NamesPut (firsts_of x.entry.entries.now) (seconds_of x.entry.entries.now) x.entry.read.count x.entry.read.width t.old t.new result }
{
    clear_sets(t);
    put_keys(t, x);
    put_sets(t, x);
    item_names::put_owners(t, x.read.count);
    item_names::put_words(t, x.read.width)
}
