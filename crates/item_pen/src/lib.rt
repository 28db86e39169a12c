// A pen over lent bytes. Down, it writes bits; up, it only counts them: what counts a schedule's bits is what writes them.
#![tactic(auto)]

ghost use Rattle.std.specs.Prelude.{false, [], ◌++◌, ◌≡◌, ◌+◌, ◌*◌, ◌/◌, ◌^◌, ◌≤◌, ◌<◌, length, drop};
ghost use Rattle.definitions.specs.Bits.{to_bits, bits_of, num};
ghost use Rattle.bits.specs.Writing.{put};
ghost use Rattle.item_pen.specs.Pen.{Holds, field_bits, Merged, Begins, RoomFor, Adds, PassesOver, flushed, TakesIn};

mod field;

use bits::Cursor;
pub use field::Field;

// How many items were put, and where the next bit goes.
#[derive(Clone, Copy)]
pub struct Pen {
    pub items: usize,
    pub at: usize,
}

// A pen with the bytes that it writes to, and whether it is down. `down` is a bool, so that counting and writing are one function with
// one contract: an enum of the two would be the same test.
#[derive(Drop)]
pub struct ListingPen<'a> {
    pub buf: &'a mut [u8],
    pub down: bool,
    pub pen: Pen,
}

// A number in n bits (FORMAT 2.1).
pub fn number(n: usize, v: u64) -> Field
    requires { n ≤ 56 }
    ensures { Holds result n (to_bits n v) }
{
    let one: u64 = 1;
    Field {
        width: n,
        value: v % (one << n),
    }
}

// One field behind another, as one field.
pub fn join(a: Field, b: Field) -> Field
    requires { a.width + b.width ≤ 56 }
    ensures { Holds result (a.width + b.width) (field_bits a ++ field_bits b) }
{
    Field {
        width: a.width + b.width,
        value: (a.value << b.width) + b.value,
    }
}

// The 64 bits of the eight bytes from i on.
fn eight_at(s: &[u8], i: usize) -> u64
    requires { i + 8 ≤ length s.now }
    ensures { result ≡ num 64 (drop (8 * i) (bits_of s.now)) }
{
    u64::from_be_bytes([
        s[i],
        s[i + 1],
        s[i + 2],
        s[i + 3],
        s[i + 4],
        s[i + 5],
        s[i + 6],
        s[i + 7],
    ])
}

// The 64 bits of x, into the eight bytes from i on.
fn put_eight(buf: &mut [u8], i: usize, x: u64)
    requires { i + 8 ≤ length buf.old }
    ensures { buf.new ≡ put buf.old (8 * i) (to_bits 64 x) }
{
    buf[i..i + 8].copy_from_slice(&x.to_be_bytes());
}

// Eight bytes as one number, with a field behind its first o bits: those stay, zeros go behind the field to the end of its last
// byte, and what stands behind that stays.
fn merged(old: u64, o: usize, f: Field) -> u64
    requires { (0 < f.width) × (o < 8) }
    ensures { Merged old o f.width f.value result }
{
    let behind = 64 - o - f.width;
    let kept = behind / 8 * 8;
    let all: u64 = 18446744073709551615;
    let one: u64 = 1;
    let hole = (all >> o) - ((one << kept) - 1);
    (old - (old & hole)) + (f.value << behind)
}

// A field at bit `at`, in the eight bytes from its byte on, and zeros to the end of the byte that its last bit is in.
pub fn put_wide(buf: &mut [u8], at: usize, f: Field)
    requires { (0 < f.width) × (at / 8 + 8 ≤ length buf.old) }
    ensures { buf.new ≡ put buf.old at (field_bits f) }
{
    let i = at / 8;
    let old = eight_at(buf, i);
    put_eight(buf, i, merged(old, at % 8, f));
}

// The same near the end of the bytes, and for what is written once, 16 bits at a time.
fn put_near(buf: &mut [u8], at: usize, f: Field)
    requires { (at + f.width ≤ 8 * length buf.old) × (at + f.width < 2 ^ 64) }
    ensures { buf.new ≡ put buf.old at (field_bits f) }
{
    let mut c = Cursor { at };
    let mut left = f.width;
    // What is left of the width is needed at each step and behind the last: a count of the steps would be no plainer.
    while 16 < left {
        left -= 16;
        c = c.write(buf, 16, (f.value >> left) as usize);
    }
    c.write(buf, left, f.value as usize);
}

// A field at bit `at`, and zeros to the end of the byte that its last bit is in. No other byte is touched.
pub fn put_bits(buf: &mut [u8], at: usize, f: Field)
    requires { (at + f.width ≤ 8 * length buf.old) × (at + f.width < 2 ^ 64) }
    ensures { buf.new ≡ put buf.old at (field_bits f) }
{
    if f.width == 0 {
        return;
    }
    if buf.len() < at / 8 + 8 {
        put_near(buf, at, f);
        return;
    }
    put_wide(buf, at, f);
}

// What is held behind `ListingPen::make_room`: both fields where they have at most 56 bits, else the second alone.
pub fn take_in(held: Field, f: Field) -> Field
    ensures { TakesIn held f result }
{
    if held.width + f.width <= 56 {
        return join(held, f);
    }
    f
}

impl<'a> ListingPen<'a> {
    // A pen that has put nothing.
    pub fn new(buf: &'a mut [u8], down: bool) -> ListingPen<'a>
        ensures { Begins buf.entry down result }
    {
        ListingPen {
            buf,
            down,
            pen: Pen { items: 0, at: 0 },
        }
    }

    // One more field. With the pen down it goes to the next bit, and zeros to the end of its last byte; with the pen up no byte is
    // touched.
    pub fn add(&mut self, f: Field)
        requires { RoomFor self.old 0 (field_bits f) }
        ensures { Adds self.old self.new 0 (field_bits f) }
    {
        if self.down {
            put_bits(self.buf, self.pen.at, f);
        }
        self.pen.at += f.width;
    }

    // One more field, one that a listing has once.
    pub fn add_once(&mut self, f: Field)
        requires { RoomFor self.old 0 (field_bits f) }
        ensures { Adds self.old self.new 0 (field_bits f) }
    {
        if self.down {
            put_near(self.buf, self.pen.at, f);
        }
        self.pen.at += f.width;
    }

    // Fields are held back to be written together. What is held is written where a field finds no room beside it; `take_in` says
    // what is held then.
    pub fn make_room(&mut self, held: Field, f: Field)
        requires { RoomFor self.old 0 (flushed held f) }
        ensures { Adds self.old self.new 0 (flushed held f) }
    {
        if held.width + f.width <= 56 {
            return;
        }
        self.add(held);
    }

    // One more item.
    pub fn count_item(&mut self)
        requires { self.old.pen.items + 1 < 2 ^ 64 }
        ensures { Adds self.old self.new 1 [] }
    {
        self.pen.items += 1;
    }

    // With the pen up: n bits that are not even made.
    pub fn pass_over(&mut self, n: usize)
        requires { (self.old.down ≡ false) × (self.old.pen.at + n < 2 ^ 64) }
        ensures { PassesOver self.old n self.new }
    {
        self.pen.at += n;
    }
}
