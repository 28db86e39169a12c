// Prints what the programs print, for many sheets, with as many rows as may be. Each stands on standard input behind a head of
// four bytes, the call (0: the order) and its length; each answer ends with a line that holds a dot.
#![tactic(auto)]

use access::{Call, Settings};
use printing::Printer;
use std::alloc::Global;
use std::io::{BufReader, BufWriter, Read, Write};
use std::{io, iter};

// The call of a head's first byte.
fn call_of(byte: u8) -> Call {
    match byte {
        0 => Call::Order,
        _ => Call::Schedule,
    }
}

// A sheet, and what is asked for it.
#[derive(Drop)]
struct Request {
    call: Call,
    sheet: Vec<u8>,
}

impl Request {
    fn answer<W: Write + Drop>(&self, printer: &mut Printer<W>) -> io::Result<()> {
        let settings = Settings {
            rows: answers::MOST_ROWS,
        };
        printer.print_answer(self.call, settings, self.sheet.as_slice())?;
        writeln!(printer.out, ".")?;
        printer.out.flush()
    }
}

// The next request of an input, or None where it ends.
fn read_request<R: Read>(alloc: Global, input: &mut R) -> io::Result<Option<Request>> {
    let Some(head) = console::read_array(input)? else {
        return Ok(None);
    };
    let [call, high, middle, low]: [u8; 4] = head;
    let size = console::three([high, middle, low]);
    let Some(sheet) = console::read_part(alloc, input, size, console::SHEET)? else {
        return Ok(None);
    };
    let call = call_of(call);
    Ok(Some(Request { call, sheet }))
}

fn main(rt: HostRuntime) -> io::Result<()> {
    let alloc = rt.alloc();
    let mut input = BufReader::new(alloc, rt.reader())?;
    let out = BufWriter::new(alloc, io::writer(&rt))?;
    let mut printer = Printer { alloc, out };
    let requests = iter::from_fn(|| read_request(alloc, &mut input).transpose());
    for request in requests.take(console::MANY) {
        request?.answer(&mut printer)?;
    }
    Ok(())
}
