// A list of at most N items, in an array beside its count: fixed memory, and no heap.
#![tactic(auto)]

ghost use Rattle.std.specs.Prelude.{◌≡◌, ◌+◌, ◌<◌, ◌≤◌, [], ◌∷◌, ◌++◌, insert, length, set, ⊤};

use std::alloc::AllocError;

// The first count items; what stands at the other places does not count. How long the array is its type says; a ghost field says
// it too, for the laws, which see a list.
pub struct UpTo<T, const N: usize> {
    pub count: usize,
    pub items: [T; N],
    pub ghost few: { count ≤ N },
    pub ghost long: { length items ≡ N },
}

// By hand: on a struct with a type parameter a derive of Clone or Copy is refused beside ghost fields.
impl<T: Copy, const N: usize> Copy for UpTo<T, N> {}

impl<T: Copy, const N: usize> Clone for UpTo<T, N> {
    ghost is_clone = { λ x y. y ≡ x };

    ghost is_infallible = { λ _. ⊤ };

    // Equal to its source; it cannot fail.
    fn clone(&self) -> Result<Self, AllocError> {
        Ok(*self)
    }
}

impl<T: Copy, const N: usize> UpTo<T, N> {
    ghost use Rattle.bounded.specs.Items.{items_of};

    // None yet. The blank is what stands at the places that do not count.
    pub fn new(blank: T) -> UpTo<T, N>
        ensures { (items_of result ≡ []) × (result.count ≡ 0) }
    {
        UpTo {
            count: 0,
            items: [blank; N],
        }
    }

    // One item more, behind the others.
    pub fn push(&mut self, item: T)
        requires { self.old.count < N }
        ensures { (items_of self.new ≡ items_of self.old ++ (item ∷ [])) × (self.new.count ≡ self.old.count + 1) }
    {
        self.items[self.count] = item;
        self.count += 1;
    }

    // One item more, in front of that at the place.
    pub fn insert(&mut self, at: usize, item: T)
        requires { (at ≤ self.old.count) × (self.old.count < N) }
        ensures { (items_of self.new ≡ insert (items_of self.old) at item) × (self.new.count ≡ self.old.count + 1) }
    {
        let count = self.count;
        let before = self.items;
        self.items[at] = item;
        // By hand: copy_within asks who links the library for memmove.
        for i in at..count {
            self.items[i + 1] = before[i];
        }
        self.count = count + 1;
    }

    // Another item at place i.
    pub fn set(&mut self, i: usize, item: T)
        requires { i < self.old.count }
        ensures { (items_of self.new ≡ set (items_of self.old) i item) × (self.new.count ≡ self.old.count) }
    {
        self.items[i] = item;
    }

    // The items.
    pub fn as_slice(&self) -> &[T]
        ensures { result.now ≡ items_of self.now }
    {
        &self.items[..self.count]
    }
}
