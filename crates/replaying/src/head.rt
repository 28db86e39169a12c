// The head of a stored case.
ghost use Rattle.std.specs.Prelude.{◌≡◌, ◌&&◌, leb};

use access::{Call, Settings};
use answers::Parts;

// A sheet of so many bytes stands for the one before it.
pub(crate) const SAME_SHEET: usize = 65535;

// The most bytes that are lent for a diagnosis where cases are limited: 256 rows have 1,536.
const DIAGNOSIS: usize = 4096;

// Which call is run, with listings of which lengths, and what it must answer; the lengths of the name, the sheet, and the slices
// that are lent; and how the call is set.
#[derive(Clone, Copy)]
pub(crate) struct Head {
    pub(crate) call: Call,
    pub(crate) shorter_too: bool,
    pub(crate) expected: Parts,
    pub(crate) name: usize,
    pub(crate) sheet: usize,
    pub(crate) listing: usize,
    pub(crate) diagnosis: usize,
    pub(crate) settings: Settings,
}

impl Head {
    // Whether no longer slices are lent than a limited case may ask for; a listing has this many bytes at most.
    pub(crate) fn is_within(&self, most: usize) -> bool
        ensures { result ≡ (leb self.now.listing most && leb self.now.diagnosis 4096) }
    {
        self.listing <= most && self.diagnosis <= DIAGNOSIS
    }
}

impl From<[u8; 20]> for Head {
    fn from(bytes: [u8; 20]) -> Head {
        Head {
            call: if bytes[0] % 2 == 0 {
                Call::Order
            } else {
                Call::Schedule
            },
            shorter_too: 1 < bytes[0],
            expected: Parts {
                number: bytes[1] as usize,
                more: bytes[2] == 1,
                rows: console::two([bytes[4], bytes[5]]),
                size: console::three([bytes[13], bytes[14], bytes[15]]),
            },
            name: bytes[3] as usize,
            diagnosis: console::two([bytes[6], bytes[7]]),
            sheet: console::two([bytes[8], bytes[9]]),
            listing: console::three([bytes[10], bytes[11], bytes[12]]),
            settings: Settings {
                rows: u32::from_be_bytes([bytes[16], bytes[17], bytes[18], bytes[19]]) as usize,
            },
        }
    }
}
