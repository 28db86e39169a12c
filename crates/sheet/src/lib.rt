// The ends of a sheet: its version, and the fill behind its lists.
#![tactic(auto)]

ghost use Rattle.std.specs.Prelude.{◌≡◌, drop};
ghost use Rattle.definitions.specs.Bits.{bits_of};
ghost use Rattle.definitions.specs.Checks.{bad_fill};
ghost use Rattle.bits.specs.Reading.{Addressable};
ghost use Rattle.sheet.specs.Sheets.{version, of_opening};

use bits::Cursor;
use fields::Fault;

// A sheet begins with its version, which is 1 (FORMAT 2.2): the cursor behind it.
pub fn read_version(s: &[u8], c: Cursor) -> Result<Cursor, Fault>
    requires { Addressable s.now }
    ensures { of_opening (bits_of s.now) result ≡ version (drop c.at (bits_of s.now)) }
{
    let (v, next) = fields::read_field(s, c, 4)?;
    if v == 1 {
        Ok(next)
    } else {
        Err(Fault::NotAllowed)
    }
}

// Refusal 7: something other than zero bits to the end of the byte stands behind the last field (FORMAT 2.11). Fewer than 8
// bits are left exactly if no byte follows, and they are read as one field.
pub fn is_bad_fill(s: &[u8], c: Cursor) -> bool
    requires { Addressable s.now }
    ensures { result ≡ bad_fill (drop c.at (bits_of s.now)) }
{
    let at = c.at;
    let total = s.len() * 8;
    if total <= at {
        return false;
    }
    let left = total - at;
    if 8 <= left {
        return true;
    }
    match c.read(s, left) {
        Some((v, _)) => 0 < v,
        None => true,
    }
}
