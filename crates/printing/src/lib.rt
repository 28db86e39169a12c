// What the programs do with a sheet: they lend the slices, call, and print what then stands in them; and with a packed schedule,
// which is read into records and printed from these.
#![tactic(auto)]

use access::{Call, Settings};
use answers::Refusal;
use emitting::Report;
use std::alloc::Global;
use std::env::Env;
use std::io::Write;
use std::{env, io};
use text::{Diagnosis, Refused, Schedule, Words};

// The bytes that are lent for a listing (FORMAT 9.5).
const LISTING: usize = 65536;

// The number of the items as a schedule has it, in bytes.
const ITEMS: usize = 2;

// How a program is set by its argument, the limit of rows in decimal: as programs are where there is none, and not at all where
// it is no number, or not the only argument (FORMAT 9.5).
pub fn settings_of<R: Env + Alloc>(rt: &R) -> io::Result<Option<Settings>> {
    let mut args = env::args(rt)?;
    args.next(); // the name of the program
    let Some(limit) = args.next() else {
        return Ok(Some(Settings::shown()));
    };
    if args.next().is_some() {
        return Ok(None);
    }
    let rows = limit.as_str().parse::<usize>();
    Ok(rows.ok().map(|rows| Settings { rows }))
}

// Why a sheet cannot be read, by 1 to 7. A listing of one byte is too short or is filled: neither 8 nor 10 is asked for here, and
// of the rows of 8 none but the first.
pub fn unread(sheet: &[u8]) -> Option<Refusal> {
    let settings = Settings { rows: 1 };
    match access::order(settings, sheet, &mut [0], &mut [0; emitting::ROW]) {
        Ok(_) | Err(Refusal::NoOrder(_)) | Err(Refusal::ShortListing(_)) => None,
        Err(refusal) => Some(refusal),
    }
}

// What the programs print with: all is written before a method returns.
#[derive(Drop)]
pub struct Printer<W: Write + Drop> {
    pub alloc: Global,
    pub out: W,
}

impl<W: Write + Drop> Printer<W> {
    // A refusal without rows.
    fn print_refused(&mut self, number: usize) -> io::Result<()> {
        let refused = Refused(number);
        write!(self.out, "{refused}")?;
        self.out.flush()
    }

    // A packed schedule in these words, or why it cannot be read.
    pub fn print_packed(&mut self, words: &Words, schedule: &[u8]) -> io::Result<()> {
        let room = schedule.len().saturating_mul(schedule_records::RECORDS);
        let mut records = vec![in self.alloc; 0u8; room]?;
        match schedule_records::read_schedule(words.width(), schedule, records.as_mut_slice()) {
            Ok(_) => {
                let lines = Schedule {
                    words,
                    records: records.as_slice(),
                };
                write!(self.out, "{lines}")?;
                self.out.flush()
            }
            Err(fault) => self.print_refused(schedule_values::number_of(fault)),
        }
    }

    // The packed schedule of a sheet, at the start of the listing.
    fn print_listed(&mut self, sheet: &[u8], listing: &[u8], size: usize) -> io::Result<()> {
        let Some(schedule) = listing.get(..size) else {
            return Ok(());
        };
        let words = Words::of_sheet(self.alloc, sheet)?;
        self.print_packed(&words, schedule)
    }

    // The rows of a report.
    fn print_rows(&mut self, sheet: &[u8], written: &[u8], report: Report) -> io::Result<()> {
        let words = Words::of_sheet(self.alloc, sheet)?;
        let diagnosis = Diagnosis {
            words: &words,
            written,
            rows: report.rows,
            more: report.more,
        };
        write!(self.out, "{diagnosis}")?;
        self.out.flush()
    }

    // Why a sheet is refused, with the rows of 8 and 9.
    fn print_refusal(&mut self, sheet: &[u8], written: &[u8], refusal: Refusal) -> io::Result<()> {
        self.print_refused(refusal.number())?;
        match refusal {
            Refusal::NoOrder(report) => self.print_rows(sheet, written, report),
            Refusal::TypeRefused(report) => self.print_rows(sheet, written, report),
            _ => Ok(()),
        }
    }

    // What a call answers under these settings. What the order-only call lists is a schedule without items if their number, 0,
    // stands behind it (FORMAT 6.1).
    pub fn print_answer(&mut self, call: Call, settings: Settings, sheet: &[u8]) -> io::Result<()> {
        let mut listing = vec![in self.alloc; 0u8; LISTING]?;
        let mut diagnosis = [0u8; answers::DIAGNOSIS];
        match call.run(settings, sheet, listing.as_mut_slice(), &mut diagnosis) {
            Ok(size) => {
                let whole = match call {
                    Call::Order => size.saturating_add(ITEMS),
                    Call::Schedule => size,
                };
                self.print_listed(sheet, listing.as_slice(), whole)
            }
            Err(refusal) => self.print_refusal(sheet, &diagnosis, refusal),
        }
    }

    // A packed schedule in the words of a sheet that can be read, or the sheet's refusal. Whether the sheet has an order is not
    // asked: its words are there.
    pub fn print_shown(&mut self, sheet: &[u8], schedule: &[u8]) -> io::Result<()> {
        match unread(sheet) {
            None => {
                let words = Words::of_sheet(self.alloc, sheet)?;
                self.print_packed(&words, schedule)
            }
            Some(refusal) => self.print_refused(refusal.number()),
        }
    }
}

#[cfg(test)]
mod tests {
    use super::*;
    use std::test::Fail;

    // The sheet, its schedule and the lines of FORMAT 9.
    const SHEET: [u8; 38] = [
        0x10, 0x42, 0x31, 0x30, 0xb9, 0xb2, 0x91, 0x99, 0xa5, 0xb1, 0x95, 0x0e, 0x4c, 0xae, 0x6d,
        0xee, 0xae, 0x4c, 0x6c, 0xa4, 0x73, 0x65, 0x6c, 0x66, 0x06, 0x00, 0x00, 0x12, 0x20, 0x20,
        0x02, 0x61, 0x02, 0x01, 0x01, 0x10, 0x00, 0x00,
    ];

    const SCHEDULE: [u8; 16] = [
        0x06, 0x00, 0x02, 0x00, 0x80, 0x00, 0x80, 0x00, 0x10, 0x90, 0x14, 0x08, 0x02, 0x80, 0x00,
        0x10,
    ];

    const ORDER: &str = "T base\nT resource\nT file\n";

    const LINES: &str =
        "T base\nT resource\nT file\nR base.file 0 file,resource makelist\nE base 00 file\n";

    const NUMBERS: &str = "T 0\nT 2\nT 1\nR 0.1 0 1,2 makelist\nE 0 00 1\n";

    #[test]
    fn prints_sheets(rt: HostRuntime) -> Result<(), Fail> {
        let mut printer = Printer {
            alloc: rt.alloc(),
            out: Vec::new(rt.alloc()),
        };
        printer.print_answer(Call::Schedule, Settings::shown(), &SHEET)?;
        assert_eq!(rt; printer.out.as_slice(), LINES.as_bytes());
        printer.out.clear();
        printer.print_answer(Call::Order, Settings::shown(), &SHEET)?;
        assert_eq!(rt; printer.out.as_slice(), ORDER.as_bytes());
        printer.out.clear();
        printer.print_answer(Call::Order, Settings::shown(), b"")?;
        assert_eq!(rt; printer.out.as_slice(), b"refused 3\n".as_slice());
        printer.out.clear();
        printer.print_answer(Call::Order, Settings { rows: 257 }, b"")?;
        assert_eq!(rt; printer.out.as_slice(), b"refused 17\n".as_slice());
        Ok(())
    }

    #[test]
    fn prints_schedules(rt: HostRuntime) -> Result<(), Fail> {
        let mut printer = Printer {
            alloc: rt.alloc(),
            out: Vec::new(rt.alloc()),
        };
        printer.print_shown(&SHEET, &SCHEDULE)?;
        assert_eq!(rt; printer.out.as_slice(), LINES.as_bytes());
        printer.out.clear();
        printer.print_packed(&Words::unknown(rt.alloc(), 4), &SCHEDULE)?;
        assert_eq!(rt; printer.out.as_slice(), NUMBERS.as_bytes());
        Ok(())
    }
}
