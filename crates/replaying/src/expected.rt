// What a call must answer.
ghost use Rattle.std.specs.Prelude.{◌≡◌, false, nat_eq};
ghost use Rattle.answers.specs.Answers.{parts, parts_of};
ghost use Rattle.replaying.specs.Expected.{written_of};

use answers::{Parts, Refusal};

// The bytes of a row of a diagnosis.
const ROW: usize = 6;

// That a listing lacks this size.
pub(crate) fn short_listing(size: usize) -> Parts
    ensures { parts_of result ≡ parts 10 size 0 false }
{
    Parts::from(Err(Refusal::ShortListing(size)))
}

pub(crate) fn is_accepted(expected: &Parts) -> bool
    ensures { result ≡ nat_eq expected.now.number 0 }
{
    expected.number == 0
}

// How many bytes the call must write: into the listing, or the rows.
pub(crate) fn written(expected: &Parts) -> usize
    ensures { result ≡ written_of expected.now }
{
    if is_accepted(expected) {
        expected.size
    } else {
        expected.rows.saturating_mul(ROW)
    }
}
