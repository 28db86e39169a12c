// What the order of a map is, over a compact form in which a type is its place in name order: its definitions and laws.
#![tactic(auto)]

ghost use Rattle.std.specs.Prelude.{◌≡◌, ◌<◌, ◌≤◌, ℕ, get_or};

use fields::Name;

// A listed parent: the place of the type that it names, which is `count` where no type has the name, and its name. A parent
// spelled `self` has both too.
#[derive(Clone, Copy)]
pub struct Parent {
    pub place: u16,
    pub name: Name,
}

// The names and the parents of the types, in name order. Type t lists the first counts[t] of the eight parents in its place.
// Columns: the walks along the parents read no name of a type. A listed parent is asked for by its place in the list, since what is
// said of a listing, that it is the first to reach its parent or hands on, is a bit at that place.
#[derive(Clone, Copy)]
pub struct Parents {
    pub count: usize,
    pub self_word: u8,
    pub names: [Name; 64],
    pub counts: [u16; 64],
    pub parents: [[Parent; 8]; 64],
    pub ghost few: { count ≤ 64 },
    pub ghost short: { (t : ℕ) → t < count → get_or counts t 0 ≤ 8 },
}

impl Parents {
    ghost use Rattle.order_form.specs.Reading.{blank, parent_at, self_in};

    // The form of no types.
    #[tactic(auto, unfolding(crate::specs::Reading::blank))]
    pub fn blank() -> Parents
        ensures { result ≡ blank }
    {
        let name = Name {
            first: 0,
            second: 0,
        };
        let none = Parent { place: 0, name };
        Parents {
            count: 0,
            self_word: 0,
            names: [name; 64],
            counts: [0; 64],
            parents: [[none; 8]; 64],
        }
    }

    // The place of the type that parent i of type t names.
    pub fn place(&self, t: usize, i: usize) -> usize
        requires { (t < 64) × (i < 8) }
        ensures { result ≡ (parent_at self.now t i).place }
    {
        usize::from(self.parents[t][i].place)
    }

    // Whether parent i of type t is spelled `self`.
    pub fn is_self(&self, t: usize, i: usize) -> bool
        requires { (t < 64) × (i < 8) }
        ensures { result ≡ self_in self.now (parent_at self.now t i) }
    {
        let name = self.parents[t][i].name;
        name.first == self.self_word && name.second == 255
    }
}
