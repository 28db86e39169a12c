// A case as it was read, and how it is run.
use crate::expected;
use crate::head::Head;
use access::{Call, Settings};
use answers::Parts;
use std::alloc::{AllocError, Global};

// A byte of a lent slice before the call.
const LENT: u8 = 170;

// Listings of every length are tried where the call writes no more bytes than these.
const SMALL: usize = 255;

// The most bytes of the records of a schedule where cases are limited: those of 65,536 bytes have as many. Where they are longer,
// the schedule is not read back.
const RECORDS: usize = 1048576;

// A call with its settings, its sheet, and what it must answer and write.
#[derive(Clone, Copy)]
pub(crate) struct Case<'a> {
    pub(crate) call: Call,
    pub(crate) settings: Settings,
    pub(crate) sheet: &'a [u8],
    pub(crate) expected: Parts,
    pub(crate) written: &'a [u8],
    // whether the records have a limit
    pub(crate) limited: bool,
}

impl Case<'_> {
    // With the listing that the head names; where the sheet is accepted, with shorter ones too if these are asked for, and the
    // schedule is read back.
    pub(crate) fn replay(&self, alloc: Global, head: &Head) -> Result<bool, AllocError> {
        let mut listing = vec![in alloc; LENT; head.listing]?;
        let mut diagnosis = vec![in alloc; LENT; head.diagnosis]?;
        if !self.agrees(listing.as_mut_slice(), diagnosis.as_mut_slice()) {
            return Ok(false);
        }
        if !expected::is_accepted(&self.expected) {
            return Ok(true);
        }
        if head.shorter_too
            && !self.agrees_shorter(listing.as_mut_slice(), diagnosis.as_mut_slice())
        {
            return Ok(false);
        }
        match self.call {
            Call::Order => Ok(true),
            Call::Schedule => self.reads_back(alloc, listing.as_mut_slice()),
        }
    }

    // Whether the call answers as expected, and leaves the lent slices so.
    fn agrees(&self, listing: &mut [u8], diagnosis: &mut [u8]) -> bool {
        listing.fill(LENT);
        diagnosis.fill(LENT);
        let answer = Parts::from(self.call.run(self.settings, self.sheet, listing, diagnosis));
        if answer != self.expected {
            return false;
        }
        if expected::is_accepted(&self.expected) {
            is_left(listing, self.written) && is_left(diagnosis, b"")
        } else {
            is_left(listing, b"") && is_left(diagnosis, self.written)
        }
    }

    // All shorter listings where little is written, else those from one byte short on.
    fn agrees_shorter(&self, listing: &mut [u8], diagnosis: &mut [u8]) -> bool {
        let size = self.expected.size;
        let first = if size <= SMALL { 0 } else { size - 1 };
        for n in first..listing.len() {
            if !self.agrees_at(&mut listing[..n], diagnosis) {
                return false;
            }
        }
        true
    }

    // A listing that is too short stays as it is, and the size that it lacks is answered.
    fn agrees_at(&self, listing: &mut [u8], diagnosis: &mut [u8]) -> bool {
        let size = self.expected.size;
        if size <= listing.len() {
            return self.agrees(listing, diagnosis);
        }
        let short = Case {
            expected: expected::short_listing(size),
            written: b"",
            ..*self
        };
        short.agrees(listing, diagnosis)
    }

    // Whether the schedule is read into records, and these are written as the same bytes (FORMAT 12.1).
    fn reads_back(&self, alloc: Global, lent: &mut [u8]) -> Result<bool, AllocError> {
        let w = text::width(self.sheet);
        let long = self.written.len().saturating_mul(schedule_records::RECORDS);
        let room = if self.limited {
            long.min(RECORDS)
        } else {
            long
        };
        let mut records = vec![in alloc; 0u8; room]?;
        let read = schedule_records::read_schedule(w, self.written, records.as_mut_slice());
        let Ok(n) = read else {
            return Ok(false);
        };
        let Some(records) = records.as_slice().get(..n) else {
            return Ok(false);
        };
        lent.fill(LENT);
        match schedule_records::write_schedule(w, records, lent) {
            Ok(size) => Ok(size == self.written.len() && is_left(lent, self.written)),
            Err(_) => Ok(false),
        }
    }
}

// Whether a slice begins with these bytes, and behind them is as it was lent.
fn is_left(slice: &[u8], written: &[u8]) -> bool {
    match slice.strip_prefix(written) {
        Some(behind) => behind.iter().all(|b| *b == LENT),
        None => false,
    }
}
