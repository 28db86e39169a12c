// The order of the types of a sheet. Reads the sheet on standard input to its end, and prints the types in order or why there
// is none, with as many rows as its argument says, 64 without one.
#![tactic(auto)]

use access::Call;
use printing::Printer;
use std::io;
use std::io::BufWriter;
use std::process::ExitCode;

// The status of a program that is asked for what cannot be done.
const TROUBLE: u8 = 2;

fn main(rt: HostRuntime) -> io::Result<ExitCode> {
    let Some(settings) = printing::settings_of(&rt)? else {
        eprintln!(rt; "order: the argument is no limit of rows")?;
        return Ok(ExitCode::from(TROUBLE));
    };
    let sheet = console::read_up_to(rt.alloc(), &mut rt.reader(), console::SHEET)?;
    let out = BufWriter::new(rt.alloc(), io::writer(&rt))?;
    let mut printer = Printer {
        alloc: rt.alloc(),
        out,
    };
    printer.print_answer(Call::Order, settings, sheet.as_slice())?;
    Ok(ExitCode::SUCCESS)
}
