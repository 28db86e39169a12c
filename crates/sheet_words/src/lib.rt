// The words of a sheet, tested where they stand: no table of them is kept.
#![tactic(auto)]

ghost use Rattle.std.specs.Prelude.{[], not, ◌&&◌, ◌||◌, cond, ◌≡◌, ◌+◌, ◌*◌, ◌^◌, ◌≤◌, ◌<◌, eqb, leb, length, drop, IfOk};
ghost use Rattle.lists.specs.Lists.{all, same_list, list_before};
ghost use Rattle.definitions.specs.Bits.{bits_of, pack_to};
ghost use Rattle.definitions.specs.Checks.{resource_bytes};
ghost use Rattle.definitions.specs.Comparisons.{bytes_before};
ghost use Rattle.definitions.specs.Parse.{counted, repeat};
ghost use Rattle.definitions.specs.Reading.{word};
ghost use Rattle.bits.specs.Reading.{Addressable};
ghost use Rattle.sheet_words.specs.Bytes.{head_of, may_stand, is_word, spelt, marks, hyphens};
ghost use Rattle.sheet_words.specs.Words.{bits_in, bytes_of, word_bytes, of_spelt, Spelled, Begun, Named, With, told, of_words_read, Reached};

mod reaching;
mod spelt;

use bits::Cursor;
use fields::Fault;
use sheet_reach::Reach;
pub use spelt::{Source, Spelt};
use std::cmp::Ordering;

// A one in each of six bytes: its products have one byte six times.
const EACH: u64 = 0x0101_0101_0101;

// The top bits of six bytes.
const TOPS: u64 = 0x8080_8080_8080;

// One more than the greatest number of six bytes.
const SIX_BYTES: u64 = 0x1_0000_0000_0000;

// The bytes of `resour`, and of `ce` with four zeros behind them.
const RESOUR: u64 = 0x7265_736f_7572;

const CE: u64 = 0x6365_0000_0000;

// The bytes of `self`, with two zeros behind them.
const SELF: u64 = 0x7365_6c66_0000;

// The first seven bits of a head that begins with r or s, which differ in the eighth alone.
const R_OR_S: u64 = 57;

// Whether the words so far ascend, whether none has a hyphen, and the numbers of `resource` and `self`. No Option: for a word that is missing the law's own
// number is the count of all words (`number_of` of the definitions), and that stands here for one that is not found yet.
#[derive(Clone, Copy)]
pub struct Found {
    pub up: bool,
    pub plain: bool,
    pub resource: usize,
    pub own: usize,
}

// Count words, the place behind them, whether they are refused with 5, and the numbers of `resource` and `self`, the count for
// one that is missing. A flag and no Err: 7 is told before 5 (FORMAT 7.3), so what stands behind the words is read first.
#[derive(Clone, Copy)]
pub struct WordsRead {
    pub count: usize,
    pub at: usize,
    pub bad: bool,
    pub resource: u8,
    pub own: u8,
}

// Of six bytes below 128, the top bit of each that a word may begin with. A capital is made small; a byte is in a range where only
// one of two sums has the top bit: with 31, which is 128 less `a`, and with 5, which is 127 less `z`; for digits and `_` likewise.
fn marked(v: u64) -> u64
    requires { v < 2 ^ 48 }
    ensures { result ≡ marks v }
{
    let small = v | (EACH * 32);
    let letter = (small + EACH * 31) ^ (small + EACH * 5);
    let digit = (v + EACH * 80) ^ (v + EACH * 70);
    let line = (v + EACH * 33) ^ (v + EACH * 32);
    (letter ^ digit ^ line) & TOPS
}

// The same of the hyphens alone.
fn hyphened(v: u64) -> u64
    requires { v < 2 ^ 48 }
    ensures { result ≡ hyphens v }
{
    ((v + EACH * 83) ^ (v + EACH * 82)) & TOPS
}

// Whether a word may begin with each of the n bytes of a number; with `inner`, whether each may stand behind its first (FORMAT 1.1).
fn is_spelt(v: u64, n: usize, inner: bool) -> bool
    requires { (n ≤ 6) × (v < 2 ^ (8 * n)) }
    ensures { result ≡ spelt (may_stand inner) n v }
{
    if v & TOPS == 0 {
        let all = TOPS >> (48 - 8 * n);
        if inner {
            return marked(v) ^ hyphened(v) == all;
        }
        return marked(v) == all;
    }
    false
}

// The same of n bytes from a place on.
fn is_text(s: Source, at: usize, n: usize, inner: bool) -> bool
    requires { at + 8 * n ≤ 8 * length s.bytes.now }
    ensures { result ≡ all (may_stand inner) (pack_to n (drop at (bits_in s.entry))) }
{
    for i in 0..n / 6 {
        if !is_spelt(sheet_window::wide(s.bytes, at + 48 * i, 48), 6, inner) {
            return false;
        }
    }
    let left = n % 6;
    if left == 0 {
        return true;
    }
    is_spelt(
        sheet_window::wide(s.bytes, at + 8 * (n - left), 8 * left),
        left,
        inner,
    )
}

// Whether n bytes from a place on may stand in a word whose first byte is the first of them (FORMAT 1.1).
fn is_word_at(s: Source, at: usize, n: usize) -> bool
    requires { at + 8 * n ≤ 8 * length s.bytes.now }
    ensures { result ≡ is_word (pack_to n (drop at (bits_in s.entry))) }
{
    if n == 0 {
        return true;
    }
    if is_text(s, at, 1, false) {
        return is_text(s, at + 8, n - 1, true);
    }
    false
}

// The first six of n bytes from a place on, as one number.
fn head_at(s: Source, at: usize, n: usize) -> u64
    ensures { result ≡ head_of 6 (pack_to n (drop at (bits_in s.entry))) }
{
    if n == 0 {
        return 0;
    }
    if 6 <= n {
        return sheet_window::wide(s.bytes, at, 48);
    }
    sheet_window::wide(s.bytes, at, 8 * n) << (48 - 8 * n)
}

// A word of n bytes from a place on. Where they pass the end, one that is there and not allowed is refused before.
fn bytes_from(s: Source, at: usize, n: usize) -> Result<Spelt, Fault>
    requires { (at ≤ 8 * length s.bytes.now) × (0 < n) × (n ≤ 31) }
    ensures { of_spelt (bits_in s.entry) result ≡ word_bytes n (drop at (bits_in s.entry)) }
{
    let there = (s.bytes.len() * 8 - at) / 8;
    if there < n {
        if is_word_at(s, at, there) {
            return Err(Fault::Past);
        }
        return Err(Fault::NotAllowed);
    }
    if is_word_at(s, at, n) {
        return Ok(Spelt {
            source: s,
            at,
            count: n,
            head: head_at(s, at, n),
            plain: is_text(s, at, n, false),
        });
    }
    Err(Fault::NotAllowed)
}

// A word of any length, anywhere.
fn plain_word(s: Source, at: usize) -> Result<Spelt, Fault>
    ensures { Spelled (bits_in s.entry) at result }
{
    let total = s.bytes.len() * 8;
    if total < at {
        return Err(Fault::Past);
    }
    if total - at < 5 {
        return Err(Fault::Past);
    }
    let n = sheet_window::wide(s.bytes, at, 5) as usize;
    if n == 0 {
        return Err(Fault::NotAllowed);
    }
    bytes_from(s, at + 5, n)
}

// A word of up to six bytes, which are the first bits of x.
fn short_word(s: Source, at: usize, n: usize, x: u64) -> Result<Spelt, Fault>
    requires { Begun (bits_in s) at n x × (n ≤ 6) }
    ensures { Spelled (bits_in s.entry) at result }
{
    let k = 48 - 8 * n;
    let v = x >> k;
    if is_spelt(v, n, false) {
        return Ok(Spelt {
            source: s,
            at: at + 5,
            count: n,
            head: v << k,
            plain: true,
        });
    }
    bytes_from(s, at + 5, n)
}

// A word of more than six bytes, of which x has the first six.
fn long_word(s: Source, at: usize, n: usize, x: u64) -> Result<Spelt, Fault>
    requires { Begun (bits_in s) at n x × (6 < n) }
    ensures { Spelled (bits_in s.entry) at result }
{
    let q = at + 5;
    if s.bytes.len() * 8 - q < 8 * n {
        return bytes_from(s, q, n);
    }
    if is_spelt(x, 6, false) {
        if is_text(s, q + 48, n - 6, false) {
            return Ok(Spelt {
                source: s,
                at: q,
                count: n,
                head: x,
                plain: true,
            });
        }
        return bytes_from(s, q, n);
    }
    bytes_from(s, q, n)
}

// An entry of the word list: its length, 1 to 31, and so many bytes (FORMAT 2.4).
fn read_word(s: Source, at: usize) -> Result<Spelt, Fault>
    ensures { Spelled (bits_in s.entry) at result }
{
    if at / 8 + 8 <= s.bytes.len() {
        let w = sheet_window::wide_in(s.bytes, at, 53);
        let n = (w >> 48) as usize;
        if 0 < n {
            let x = w % SIX_BYTES;
            if n <= 6 {
                return short_word(s, at, n, x);
            }
            return long_word(s, at, n, x);
        }
    }
    plain_word(s, at)
}

// Whether a word comes before another, of which the first six bytes are the same.
fn rest_before(a: Spelt, b: Spelt) -> bool
    ensures { result ≡ list_before (drop 6 (bytes_of a.entry)) (drop 6 (bytes_of b.entry)) }
{
    let p = a.at;
    let q = b.at;
    let n = a.count;
    let m = b.count;
    let both = n.min(m);
    for i in 6..both {
        let x = sheet_window::wide(a.source.bytes, p + 8 * i, 8);
        let y = sheet_window::wide(b.source.bytes, q + 8 * i, 8);
        if x != y {
            return x < y;
        }
    }
    n < m && 6 < m
}

// Whether a word comes before another (FORMAT 1.2).
fn is_before(a: Spelt, b: Spelt) -> bool
    ensures { result ≡ bytes_before (bytes_of a.entry) (bytes_of b.entry) }
{
    match a.head.cmp(&b.head) {
        Ordering::Less => true,
        Ordering::Equal => rest_before(a, b),
        Ordering::Greater => false,
    }
}

// Whether words still ascend with one more.
fn still_up(up: bool, a: Spelt, b: Spelt) -> bool
    ensures { result ≡ (up && bytes_before (bytes_of a.entry) (bytes_of b.entry)) }
{
    up && is_before(a, b)
}

// Whether none has a hyphen with one more.
fn still_plain(plain: bool, w: Spelt) -> bool
    ensures { result ≡ (plain && w.entry.plain) }
{
    plain && w.plain
}

// Whether a word is `resource`: its first six bytes, and the two behind them.
fn is_resource(w: Spelt) -> bool
    ensures { result ≡ same_list eqb resource_bytes (bytes_of w.entry) }
{
    if w.head == RESOUR {
        if w.count < 6 {
            return false;
        }
        return head_at(w.source, w.at + 48, w.count - 6) == CE;
    }
    false
}

// The place i for a word that is found first there, else the old place; n, the law's number of a missing word, is that of one not
// found.
fn first_place(hit: bool, old: usize, i: usize, n: usize) -> usize
    ensures { result ≡ cond (hit && eqb old n) i old }
{
    if hit && old == n { i } else { old }
}

// The places with one word more, the i-th of n.
fn with_name(t: Found, up: bool, w: Spelt, i: usize, n: usize) -> Found
    ensures { Named t up w.entry i n result }
{
    Found {
        up,
        plain: still_plain(t.plain, w),
        resource: first_place(is_resource(w), t.resource, i, n),
        own: first_place(w.head == SELF, t.own, i, n),
    }
}

// What is found with one word more, the i-th of n. Only words that begin with r or s are looked at for their names.
fn with_word(t: Found, last: Spelt, w: Spelt, i: usize, n: usize) -> Found
    ensures { With t last.entry w.entry i n result }
{
    let up = still_up(t.up, last, w);
    if w.head >> 41 == R_OR_S {
        return with_name(t, up, w, i, n);
    }
    Found {
        up,
        plain: still_plain(t.plain, w),
        resource: t.resource,
        own: t.own,
    }
}

// Refusal 5, from whether the words ascend, how many they are, and the places of the two words.
fn is_bad(t: Found, count: usize) -> bool
    ensures { result ≡ (not t.up || (leb count t.resource || leb count t.own)) }
{
    !t.up || count <= t.resource || count <= t.own
}

// What stands before the first word: it has no bytes, so no word comes before it.
#[tactic(auto, unfolding(definitions::specs::Bits::pack_to, crate::specs::Bytes::head_of))]
fn no_word(s: Source) -> Spelt
    ensures { bytes_of result ≡ [] }
{
    Spelt {
        source: s,
        at: 0,
        count: 0,
        head: 0,
        plain: true,
    }
}

// n words, and how far they reach.
fn read_each_word(s: Source, c: Cursor, n: usize, reach: &mut Reach) -> Result<WordsRead, Fault>
    requires { n ≤ 200 }
    ensures { (of_words_read (bits_in s.entry) result ≡ told (repeat word n (drop c.at (bits_in s.entry)))) × IfOk result (λ w. (w.count ≤ 200) × Reached (repeat word n (drop c.at (bits_in s.entry))) reach.new) }
{
    let mut at = c.at;
    let mut last = no_word(s);
    let mut t = Found {
        up: true,
        plain: true,
        resource: n,
        own: n,
    };
    for i in 0..n {
        let w = read_word(s, at)?;
        t = with_word(t, last, w, i, n);
        at = w.at + 8 * w.count;
        last = w;
    }
    reaching::fill(s, c.at, n, t.plain, reach);
    Ok(WordsRead {
        count: n,
        at,
        bad: is_bad(t, n),
        resource: t.resource as u8,
        own: t.own as u8,
    })
}

// The word list, of 2 to 200 words (FORMAT 2.2), what its spelling tells (FORMAT 1.2), and how far its words reach.
pub fn read_words(s: &[u8], c: Cursor, reach: &mut Reach) -> Result<WordsRead, Fault>
    requires { Addressable s.now }
    ensures { (of_words_read (bits_of s.now) result ≡ told (counted 8 2 200 word (drop c.at (bits_of s.now)))) × IfOk result (λ w. (w.count ≤ 200) × Reached (counted 8 2 200 word (drop c.at (bits_of s.now))) reach.new) }
{
    let (n, next) = fields::read_between(s, c, 8, 2, 200)?;
    read_each_word(Source { bytes: s }, next, n, reach)
}
