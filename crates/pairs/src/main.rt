// Intersection and difference of given pairs of annotations. Each annotation stands on standard input as its kind, its tag,
// how many words it has, and for each of these the word and two bytes of its dom set, bit 0 for none; the names of an Inherit
// stand there as in crates/synth_annotations. A line of output holds both results in the same numbers, or `none`, with a bar
// between them.
#![tactic(auto)]

ghost use Rattle.std.specs.Prelude.{◌≤◌};

use sheet_records::Kind;
use std::fmt::Display;
use std::io::{BufReader, BufWriter, Read, Write};
use std::{fmt, io, iter};
use synth_annotations::AnnotationInfo;

// An annotation as a line holds it.
#[derive(Clone, Copy)]
struct Numbers<'a>(&'a AnnotationInfo);

impl fmt::Display for Numbers<'_> {
    fn fmt<W: fmt::Write>(&self, f: &mut fmt::Formatter<W>) -> fmt::Result {
        let x = self.0;
        write!(f, "{} {} {}", u8::from(x.kind), x.tag, x.count)?;
        for (word, dom) in x.words.iter().zip(x.doms.iter()).take(x.count) {
            write!(f, " {word} {}", dom.a)?;
        }
        Ok(())
    }
}

// The same, or `none`.
#[derive(Clone, Copy)]
struct Part(Option<AnnotationInfo>);

impl fmt::Display for Part {
    fn fmt<W: fmt::Write>(&self, f: &mut fmt::Formatter<W>) -> fmt::Result {
        match &self.0 {
            Some(x) => Numbers(x).fmt(f),
            None => f.write_str("none"),
        }
    }
}

fn read_resources<R: Read>(
    input: &mut R,
    kind: Kind,
    tag: u8,
    count: usize,
) -> io::Result<AnnotationInfo>
    requires { count ≤ 15 }
{
    let none = rows::empty_row();
    let mut words = [0u8; 15];
    let mut doms = [none; 15];
    for i in 0..count {
        let [word, high, low]: [u8; 3] = console::read_padded(input)?;
        words[i] = word;
        doms[i].a = u64::from(u16::from_be_bytes([high, low]));
    }
    Ok(AnnotationInfo {
        kind,
        tag,
        count,
        words,
        doms,
    })
}

// A kind past the last one counts as it, and more than 15 words as 15.
fn read_annotation<R: Read>(input: &mut R, head: [u8; 3]) -> io::Result<AnnotationInfo> {
    let [kind, tag, count] = head;
    read_resources(
        input,
        Kind::of(usize::from(kind.min(6))),
        tag,
        usize::from(count.min(15)),
    )
}

// Two annotations that can be compared.
#[derive(Clone, Copy)]
struct Pair {
    x: AnnotationInfo,
    y: AnnotationInfo,
}

impl Pair {
    fn answer<W: Write>(&self, out: &mut W) -> io::Result<()> {
        let shared = Part(synth_annotations::intersection(self.x, self.y));
        let rest = Part(synth_annotations::difference(self.x, self.y));
        writeln!(out, " {shared} | {rest}")?;
        out.flush()
    }
}

// The next pair of an input, or None where it ends before one; what it lacks within one counts as 0.
fn read_pair<R: Read>(input: &mut R) -> io::Result<Option<Pair>> {
    let Some(head) = console::read_array(input)? else {
        return Ok(None);
    };
    let x = read_annotation(input, head)?;
    let head = console::read_padded(input)?;
    let y = read_annotation(input, head)?;
    Ok(Some(Pair { x, y }))
}

fn main(rt: HostRuntime) -> io::Result<()> {
    let mut input = BufReader::new(rt.alloc(), rt.reader())?;
    let mut out = BufWriter::new(rt.alloc(), io::writer(&rt))?;
    let pairs = iter::from_fn(|| read_pair(&mut input).transpose());
    for pair in pairs.take(console::MANY) {
        pair?.answer(&mut out)?;
    }
    out.flush()
}
