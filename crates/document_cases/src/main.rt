// Runs the calls on the sheets of document 01's (p) cases and of its corners, and compares every byte. Prints a line for
// each: its name, and `ok` or `differs`.
#![tactic(auto)]

use replaying::Cases;
use std::io;
use std::io::{BufReader, BufWriter, Write};

fn main(rt: HostRuntime) -> io::Result<()> {
    let input = BufReader::new(rt.alloc(), rt.reader())?;
    let mut out = BufWriter::new(rt.alloc(), io::writer(&rt))?;
    for replayed in Cases::limited(rt.alloc(), input, console::SCHEDULE).take(replaying::MANY) {
        let replayed = replayed?;
        out.write_all(replayed.name.as_slice())?;
        let verdict = if replayed.agrees { "ok" } else { "differs" };
        writeln!(out, " {verdict}")?;
        out.flush()?;
    }
    Ok(())
}
