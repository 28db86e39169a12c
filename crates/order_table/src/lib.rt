// Names in the compact form of a map, put as keys.
#![tactic(auto)]

ghost use Rattle.std.specs.Prelude.{[], ◌≡◌, ◌<◌, length, set, get_or};
ghost use Rattle.fields.specs.Keys.{name_with};
ghost use Rattle.order_table.specs.Keys.{parent_of};

use fields::{Key, Name};
use order_form::{Parent, Parents};

// Puts the name of type t.
pub fn put_name(l: &mut Parents, t: usize, key: Key)
    requires { (t < 64) × (key < 65536) }
    ensures { l.new ≡ record l.old { names = set l.old.names t (name_with key) } }
{
    l.names[t] = Name::from(key);
}

// Puts parent i of type t: its name, and the place of the type that has it. There is room for it, so that it stands there then.
pub fn put_parent(l: &mut Parents, t: usize, i: usize, key: Key, place: usize)
    requires { (t < 64) × (i < 8) × (key < 65536) × (place < 65536) }
    ensures parent { l.new ≡ record l.old { parents = set l.old.parents t (set (get_or l.old.parents t []) i (parent_of key place)) } }
    ensures room { (t < length l.old.parents) × (i < length (get_or l.old.parents t [])) }
{
    l.parents[t][i] = Parent {
        place: place as u16,
        name: Name::from(key),
    };
}
