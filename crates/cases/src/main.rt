// Replays the answers of the Rust, stored with their sheets, through the calls, and compares every byte; reads each schedule
// back and writes it again. Prints how many agree, and the number of each that does not; oracle/README.md says how standard
// input was made. A case is named `u` where the Rust gave this answer untouched, and has no name where only its comparison of
// declarations was replaced by document 01's.
#![tactic(auto)]

use replaying::{Cases, Replayed};
use std::io::{BufReader, BufWriter, Write};
use std::{fmt, io};

// The most bytes of a listing. The largest schedule stands in document_cases.
const MOST: usize = 65536;

// How many cases there are, how many of them agree, and how many of these are the Rust's untouched.
#[derive(Clone, Copy)]
struct Counts {
    cases: u64,
    agree: u64,
    untouched: u64,
}

impl Counts {
    fn count(&mut self, replayed: &Replayed) {
        self.cases = self.cases.saturating_add(1);
        if replayed.agrees {
            self.agree = self.agree.saturating_add(1);
            if replayed.name.count == 1 {
                self.untouched = self.untouched.saturating_add(1);
            }
        }
    }
}

impl fmt::Display for Counts {
    fn fmt<W: fmt::Write>(&self, f: &mut fmt::Formatter<W>) -> fmt::Result {
        let Counts {
            cases,
            agree,
            untouched,
        } = *self;
        writeln!(
            f,
            "answers {cases}\nagree {agree}\nof these of the Rust untouched {untouched}"
        )
    }
}

fn main(rt: HostRuntime) -> io::Result<()> {
    let input = BufReader::new(rt.alloc(), rt.reader())?;
    let mut out = BufWriter::new(rt.alloc(), io::writer(&rt))?;
    let mut counts = Counts {
        cases: 0,
        agree: 0,
        untouched: 0,
    };
    for replayed in Cases::limited(rt.alloc(), input, MOST).take(replaying::MANY) {
        let replayed = replayed?;
        if !replayed.agrees {
            let place = counts.cases;
            writeln!(out, "differs: {place}")?;
            out.flush()?;
        }
        counts.count(&replayed);
    }
    write!(out, "{counts}")?;
    out.flush()
}

#[cfg(test)]
mod tests {
    use super::*;
    use std::test::Fail;

    // Whether the first case of an input agrees; None where there is none.
    fn first(rt: &HostRuntime, input: &[u8]) -> Result<Option<bool>, Fail> {
        match Cases::limited(rt.alloc(), input, MOST).next() {
            Some(replayed) => Ok(Some(replayed?.agrees)),
            None => Ok(None),
        }
    }

    // Each is a case of the order-only call without a sheet, which is refused with 3.
    #[test]
    fn runs_cases_within_limits(rt: HostRuntime) -> Result<(), Fail> {
        // a sheet of ten bytes, of which none is there
        let cut =
            b"\x00\x03\x00\x00\x00\x00\x06\x00\x00\x0a\x00\x00\x00\x00\x00\x00\x00\x00\x01\x00";
        assert!(rt; first(&rt, cut)? == Some(true));
        // the longest slices, and each a byte longer
        let long =
            b"\x00\x03\x00\x00\x00\x00\x10\x00\x00\x00\x01\x00\x00\x00\x00\x00\x00\x00\x01\x00";
        assert!(rt; first(&rt, long)? == Some(true));
        let diagnosis =
            b"\x00\x03\x00\x00\x00\x00\x10\x01\x00\x00\x01\x00\x00\x00\x00\x00\x00\x00\x01\x00";
        assert!(rt; first(&rt, diagnosis)? == Some(false));
        let listing =
            b"\x00\x03\x00\x00\x00\x00\x10\x00\x00\x00\x01\x00\x01\x00\x00\x00\x00\x00\x01\x00";
        assert!(rt; first(&rt, listing)? == Some(false));
        Ok(())
    }

    // Acceptance, with one byte to be written more than a listing may have.
    #[test]
    fn ends_where_more_is_written(rt: HostRuntime) -> Result<(), Fail> {
        let head =
            b"\x00\x00\x00\x00\x00\x00\x06\x00\x00\x00\x00\x00\x00\x01\x00\x01\x00\x00\x01\x00";
        let mut input = vec![in rt.alloc(); 0u8; MOST + 21]?;
        input.as_mut_slice()[..20].copy_from_slice(head);
        assert!(rt; first(&rt, input.as_slice())?.is_none());
        Ok(())
    }
}
