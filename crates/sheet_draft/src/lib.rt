// The draft of a map: what was read of each type, a row for each in the order of the sheet. Annotations and marks stay in the
// sheet; the draft has where they begin. Rows and no columns: each is filled at once, and no set is asked of them.
#![tactic(auto)]

ghost use Rattle.std.specs.Prelude.{◌≡◌, ◌≤◌, ◌<◌};
ghost use Rattle.sheet_draft.specs.Draft.{blank, parent_count_at, parent_at};

mod entry;

pub use entry::Entry;

// How many words, types and extension records a sheet has, the numbers of its words `resource` and `self`, and whether a word has a
// hyphen.
#[derive(Clone, Copy)]
pub struct Decoding {
    pub width: usize,
    pub count: usize,
    pub extensions: usize,
    pub resource: u8,
    pub own: u8,
    pub hyphens: bool,
}

// What was read of a type.
#[derive(Clone, Copy)]
pub struct DraftRow {
    // Its name, as a key.
    pub key: u64,
    // Variant, virtual, trait and number of parents, in the 8 bits that the sheet has them in (FORMAT 2.6).
    pub head: u64,
    // The bit of the sheet from which its annotations and marks stand.
    pub place: usize,
    // Its parents, as keys.
    pub parents: [u64; 8],
}

#[derive(Drop)]
pub struct Draft {
    pub rows: [DraftRow; 64],
}

impl Draft {
    // A draft in which nothing stands yet.
    #[tactic(auto, unfolding(crate::specs::Draft::blank))]
    pub fn blank() -> Draft
        ensures { result ≡ blank }
    {
        let none = DraftRow {
            key: 0,
            head: 0,
            place: 0,
            parents: [0; 8],
        };
        Draft { rows: [none; 64] }
    }

    // How many parents the type in row i has.
    pub fn parent_count(&self, i: usize) -> usize
        requires { i < 64 }
        ensures { (result ≡ parent_count_at self.now i) × (result ≤ 8) }
    {
        (self.rows[i].head % 16 % 9) as usize
    }

    // Its k-th parent, as a key.
    pub fn parent(&self, i: usize, k: usize) -> u64
        requires { (i < 64) × (k < 8) }
        ensures { result ≡ parent_at self.now i k }
    {
        self.rows[i].parents[k]
    }
}
