// Up to 25 bits at any place of a sheet; past its end they are 0. For what the decoder has tested already.
#![tactic(auto)]

ghost use Rattle.std.specs.Prelude.{◌≡◌, ◌≤◌, drop};
ghost use Rattle.definitions.specs.Bits.{bits_of, num};

// The n bits at a place. `sheet_window::wide` is the same over eight bytes: in one function for both a const parameter would choose
// how many bytes are tested, the reader and the type, and only the `if` would be shared.
pub fn peek(s: &[u8], at: usize, n: usize) -> usize
    requires { n ≤ 25 }
    ensures { result ≡ num n (drop at (bits_of s.now)) }
{
    if at / 8 + 4 <= s.len() {
        return sheet_window::window(s, at, n);
    }
    sheet_window::near_end(s, at, n)
}
