// The order of names, by the numbers of their words and how far the words that go on with a hyphen reach.
#![tactic(auto)]

ghost use Rattle.std.specs.Prelude.{◌≡◌, ◌/◌, ◌<◌};
ghost use Rattle.sheet_reach.specs.Reach.{blank, rank_of};

use fields::Key;

// Whether a word of a sheet has a hyphen, and where one has, the last word up to which all go on with each word and a hyphen.
#[derive(Drop)]
pub struct Reach {
    pub any: bool,
    pub last: [u8; 200],
}

impl Reach {
    // Of words without hyphens.
    #[tactic(auto, unfolding(crate::specs::Reach::blank))]
    pub fn blank() -> Reach
        ensures { result ≡ blank }
    {
        Reach {
            any: false,
            last: [0; 200],
        }
    }

    // A number for each name, by which they ascend (FORMAT 1.4): without hyphens its key. With them a name of two words stands
    // behind the names of all words that its first one reaches; of two that reach one word the first word with the lower number
    // is the shorter, and stands behind.
    pub fn rank(&self, key: Key) -> u64
        requires { key / 256 < 200 }
        ensures { result ≡ rank_of self.now key }
    {
        if !self.any {
            return key;
        }
        let first = key / 256;
        let second = key % 256;
        if second == 0 {
            return first * 131072;
        }
        let last = u64::from(self.last[first as usize]);
        last * 131072 + 65536 + (255 - first) * 256 + second
    }
}
