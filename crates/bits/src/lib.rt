// Fields of bits in a list of bytes; the first bit of a byte or of a field is its most significant one (FORMAT 2.1).
#![tactic(auto)]

ghost use Rattle.std.specs.Prelude.{◌≡◌, ◌+◌, ◌*◌, ◌%◌, ◌^◌, ◌≤◌, ◌<◌, length, drop, get_or};
ghost use Rattle.definitions.specs.Bits.{bits_of, num, to_bits};
ghost use Rattle.bits.specs.Reading.{read_at};
ghost use Rattle.bits.specs.Writing.{put, Wrote};

// A bit position (01: 'travels as a value'): each method hands back the position behind what it read or wrote.
#[derive(Clone, Copy)]
pub struct Cursor {
    pub at: usize,
}

// The byte at i, or 0 past the end.
pub fn byte_at(s: &[u8], i: usize) -> u8
    ensures { result ≡ get_or s.now i 0 }
{
    s.get(i).copied().unwrap_or(0)
}

// The n bits at p, out of the three bytes that hold them: at most 7 bits stand before them, and 7 + 16 < 24.
fn window(s: &[u8], p: usize, n: usize) -> usize
    requires { (n ≤ 16) × (p + n ≤ 8 * length s.now) × (8 * length s.now < 2 ^ 64) }
    ensures { result ≡ num n (drop p (bits_of s.now)) }
{
    let b = p / 8;
    let w = u32::from_be_bytes([0, byte_at(s, b), byte_at(s, b + 1), byte_at(s, b + 2)]) as usize;
    let k = 24 - p % 8 - n;
    (w >> k) % (1 << n)
}

// Writes the last m bits of w into the byte that bit p is in, and zeros behind them.
fn put_chunk(buf: &mut [u8], p: usize, m: usize, w: usize)
    requires { (p < 8 * length buf.old) × (0 < m) × (p % 8 + m ≤ 8) }
    ensures { buf.new ≡ put buf.old p (to_bits m w) }
{
    let i = p / 8;
    let o = p % 8;
    let x = buf[i] as usize;
    let y = (((x >> (8 - o)) << m) + w % (1 << m)) << (8 - o - m);
    buf[i] = (y % 256) as u8;
}

// Writes the last m bits of w at the start of byte i, and zeros behind them. Not `put_chunk` at bit 8 * i, which would shift what
// stands before out and in again.
fn put_start(buf: &mut [u8], i: usize, m: usize, w: usize)
    requires { (i < length buf.old) × (0 < m) × (m ≤ 8) }
    ensures { buf.new ≡ put buf.old (8 * i) (to_bits m w) }
{
    let z = (w % (1 << m)) << (8 - m);
    buf[i] = (z % 256) as u8;
}

// Writes the last k bits of v from byte i on, which are at most two bytes, and zeros behind them.
fn put_rest(buf: &mut [u8], i: usize, k: usize, v: usize)
    requires { (0 < k) × (k ≤ 16) × (8 * i + k ≤ 8 * length buf.old) }
    ensures { buf.new ≡ put buf.old (8 * i) (to_bits k v) }
{
    if k <= 8 {
        put_start(buf, i, k, v);
        return;
    }
    put_start(buf, i, 8, v >> (k - 8));
    put_start(buf, i + 1, k - 8, v);
}

impl Cursor {
    // The n bits at the cursor and the cursor behind them; None where they pass the end.
    pub fn read(self, s: &[u8], n: usize) -> Option<(usize, Cursor)>
        requires { (n ≤ 16) × (8 * length s.now < 2 ^ 64) }
        ensures { result ≡ read_at (bits_of s.now) self.at n }
    {
        let at = self.at;
        let total = s.len() * 8;
        if total < at || total - at < n {
            return None;
        }
        Some((window(s, at, n), Cursor { at: at + n }))
    }

    // Writes the last n bits of v at the cursor, and zeros to the end of the byte that the last of them is in.
    pub fn write(self, buf: &mut [u8], n: usize, v: usize) -> Cursor
        requires { (n ≤ 16) × (self.at + n ≤ 8 * length buf.old) × (self.at + n < 2 ^ 64) }
        ensures { Wrote buf.old buf.new self.at result.at (to_bits n v) }
    {
        let at = self.at;
        let room = 8 - at % 8;
        if n == 0 {
            return self;
        }
        if n <= room {
            put_chunk(buf, at, n, v);
            return Cursor { at: at + n };
        }
        let k = n - room;
        put_chunk(buf, at, room, v >> k);
        put_rest(buf, at / 8 + 1, k, v);
        Cursor { at: at + n }
    }
}
