// Answers for each sheet of standard input: with its refusal by 3 to 7, 0 for none, of the sheet alone, or also of the sheet
// cut to each shorter length and with each single bit flipped; or with what the order program prints for it under the highest
// limit. tools/damage makes the input, and by a model of its own what must come out.
#![tactic(auto)]

ghost use Rattle.std.specs.Prelude.{◌<◌, length};

use access::{Call, Settings};
use printing::Printer;
use std::alloc::Global;
use std::io::{BufReader, BufWriter, Read, Write};
use std::{io, iter};

// The most bytes of standard input.
const MOST: u64 = 65536;

// What is asked for a sheet: its refusal, or also those of the damaged sheet, or what the order program prints.
#[derive(Clone, Copy)]
enum Mode {
    Alone,
    Damaged,
    Printed,
}

impl From<u8> for Mode {
    fn from(byte: u8) -> Mode {
        match byte {
            0 => Mode::Alone,
            2 => Mode::Printed,
            _ => Mode::Damaged,
        }
    }
}

// The number of the refusal by 1 to 7, 0 for none.
fn print<W: Write>(out: &mut W, sheet: &[u8]) -> io::Result<()> {
    let n = printing::unread(sheet).map_or(0, |refusal| refusal.number());
    write!(out, "{n}")
}

// The sheet cut to each shorter length.
fn print_cut<W: Write>(out: &mut W, sheet: &[u8]) -> io::Result<()> {
    for n in 0..sheet.len() {
        print(out, &sheet[..n])?;
    }
    Ok(())
}

// The sheet with each bit of byte i flipped, from the most significant on.
fn print_flipped<W: Write>(out: &mut W, sheet: &mut [u8], i: usize) -> io::Result<()>
    requires { i < length sheet.old }
{
    let byte = sheet[i];
    for bit in [128, 64, 32, 16, 8, 4, 2, 1] {
        sheet[i] = byte ^ bit;
        print(out, sheet)?;
    }
    sheet[i] = byte;
    Ok(())
}

fn print_all_flipped<W: Write>(out: &mut W, sheet: &mut [u8]) -> io::Result<()> {
    for i in 0..sheet.len() {
        print_flipped(out, sheet, i)?;
    }
    Ok(())
}

// A sheet, and what is asked for it.
#[derive(Drop)]
struct Record {
    mode: Mode,
    sheet: Vec<u8>,
}

impl Record {
    fn answer<W: Write + Drop>(&mut self, printer: &mut Printer<W>) -> io::Result<()> {
        let out = &mut printer.out;
        match self.mode {
            Mode::Alone => {
                print(out, self.sheet.as_slice())?;
                writeln!(out)
            }
            Mode::Damaged => {
                print(out, self.sheet.as_slice())?;
                write!(out, " ")?;
                print_cut(out, self.sheet.as_slice())?;
                write!(out, " ")?;
                print_all_flipped(out, self.sheet.as_mut_slice())?;
                writeln!(out)
            }
            Mode::Printed => {
                let settings = Settings {
                    rows: answers::MOST_ROWS,
                };
                printer.print_answer(Call::Order, settings, self.sheet.as_slice())
            }
        }
    }
}

// The next record of an input, or None where it ends: two bytes for the length of its sheet, its mode, and the sheet.
fn read_record<R: Read>(alloc: Global, input: &mut R) -> io::Result<Option<Record>> {
    let Some(head) = console::read_array(input)? else {
        return Ok(None);
    };
    let [high, low, mode]: [u8; 3] = head;
    let size = console::two([high, low]);
    let Some(sheet) = console::read_part(alloc, input, size, size)? else {
        return Ok(None);
    };
    let mode = Mode::from(mode);
    Ok(Some(Record { mode, sheet }))
}

fn main(rt: HostRuntime) -> io::Result<()> {
    let alloc = rt.alloc();
    let mut input = BufReader::new(alloc, rt.reader().take(MOST))?;
    let out = BufWriter::new(alloc, io::writer(&rt))?;
    let mut printer = Printer { alloc, out };
    let records = iter::from_fn(|| read_record(alloc, &mut input).transpose());
    for record in records.take(console::MANY) {
        record?.answer(&mut printer)?;
    }
    printer.out.flush()
}
