// The types of a map in their order, each by its place in name order.
ghost use Rattle.std.specs.Prelude.{[], ◌∷◌, ◌++◌, ◌≡◌, ℕ, ◌<◌, get_or};

use bounded::UpTo;

// No place is past the columns of a catalogue.
#[derive(Drop)]
pub struct Order {
    pub types: UpTo<usize, 64>,
    pub ghost within: { (i : ℕ) → i < types.count → get_or types.items i 0 < 64 },
}

impl Order {
    ghost use Rattle.bounded.specs.Items.{items_of};

    // No type stands in it.
    pub fn new() -> Order
        ensures { items_of result.types ≡ [] }
    {
        Order {
            types: UpTo::new(0),
        }
    }

    // No type stands in it any more; the array stays as it is.
    pub fn clear(&mut self)
        ensures { items_of self.new.types ≡ [] }
    {
        self.types.count = 0;
    }

    // One type more, behind the others.
    pub fn push(&mut self, a: usize)
        requires { (self.old.types.count < 64) × (a < 64) }
        ensures { items_of self.new.types ≡ items_of self.old.types ++ (a ∷ []) }
    {
        self.types.push(a);
    }

    // The types, the first of the order first.
    pub fn as_slice(&self) -> &[usize]
        ensures { result.now ≡ items_of self.now.types }
    {
        self.types.as_slice()
    }
}
