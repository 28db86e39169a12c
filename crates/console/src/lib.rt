// Standard input as the programs read it: whole parts, of which the end of the input leaves some short, and the numbers in them.
#![tactic(auto)]

ghost use Rattle.std.specs.Prelude.{◌≡◌, ◌≤◌, ◌<◌, IfOk, IfSome, IsNone, ◌∷◌, length, vec_len};
ghost use Rattle.std.specs.Int.{w16, w32, from_be_bytes};

use std::alloc::Global;
use std::io;
use std::io::Read;

// The most bytes that are read of a sheet: more than the 40,960 that a sheet may have, so that one that is longer is seen.
pub const SHEET: usize = 65536;

// The most bytes of a schedule: the largest that was found has 239,675 (FORMAT 6.4).
pub const SCHEDULE: usize = 262144;

// At most so many records are read of an input: each loop is proved to end, and no contract says that an input does.
pub const MANY: usize = usize::MAX;

// Two bytes as a number, the high one first: std's `from_be_bytes`, here and in `three`, with a bound as a clause for callers.
pub fn two(bytes: [u8; 2]) -> usize
    ensures value { result ≡ from_be_bytes w16 bytes }
    ensures bound { result < 65536 }
{
    u16::from_be_bytes(bytes) as usize
}

// Three bytes as a number, the highest first.
pub fn three(bytes: [u8; 3]) -> usize
    ensures value { result ≡ from_be_bytes w32 (0 ∷ bytes) }
    ensures bound { result < 16777216 }
{
    let [high, middle, low] = bytes;
    u32::from_be_bytes([0, high, middle, low]) as usize
}

// Reads until `buf` is full or the input ends, and returns how many bytes it put at the start of `buf`. On an empty `buf` it
// makes no call.
pub fn read_full<R: Read>(input: &mut R, buf: &mut [u8]) -> io::Result<usize>
    ensures { IfOk result (λ n. n ≤ length buf.new) }
{
    let mut done = 0;
    // No range: how many bytes a read brings is not known beforehand.
    while done < buf.len() {
        let n = input.read(&mut buf[done..])?;
        if n == 0 {
            break;
        }
        done += n;
    }
    Ok(done)
}

// The next N bytes, or None where the input ends before. The type says that there are N; what they are none can say.
pub fn read_array<R: Read, const N: usize>(input: &mut R) -> io::Result<Option<[u8; N]>> {
    let mut bytes = [0; N];
    let n = read_full(input, &mut bytes)?;
    Ok(if n == N { Some(bytes) } else { None })
}

// The next N bytes, with 0 for each that the input lacks.
pub fn read_padded<R: Read, const N: usize>(input: &mut R) -> io::Result<[u8; N]> {
    let mut bytes = [0; N];
    read_full(input, &mut bytes)?;
    Ok(bytes)
}

// The next n bytes, or None where that is more than `most` or the input ends before.
pub fn read_part<R: Read>(
    alloc: Global,
    input: &mut R,
    n: usize,
    most: usize,
) -> io::Result<Option<Vec<u8>>>
    ensures whole { IfOk result (λ part. IfSome part (λ v. vec_len v ≡ n)) }
    ensures too_long { most < n → IfOk result (λ part. IsNone part) }
{
    if most < n {
        return Ok(None);
    }
    let bytes = read_up_to(alloc, input, n)?;
    Ok(if bytes.len() == n { Some(bytes) } else { None })
}

// The next n bytes, or those until the input ends.
pub fn read_up_to<R: Read>(alloc: Global, input: &mut R, n: usize) -> io::Result<Vec<u8>>
    ensures { IfOk result (λ v. vec_len v ≤ n) }
{
    let mut bytes = Vec::new(alloc);
    input.by_ref().take(n as u64).read_to_end(&mut bytes)?;
    // the library promises no bound
    bytes.truncate(n);
    Ok(bytes)
}

#[cfg(test)]
mod tests {
    use super::*;
    use std::test::Fail;

    #[test]
    fn reads_parts(rt: HostRuntime) -> Result<(), Fail> {
        let mut input: &[u8] = &[1, 2, 0, 1, 3, 5, 6, 7];
        let bytes = read_array(&mut input)?.ok_or("no array")?;
        assert_eq!(rt; two(bytes), 258);
        let bytes = read_array(&mut input)?.ok_or("no array")?;
        assert_eq!(rt; three(bytes), 259);
        let part = read_part(rt.alloc(), &mut input, 1, 1)?.ok_or("no part")?;
        assert_eq!(rt; part.as_slice(), [5].as_slice());
        assert!(rt; read_part(rt.alloc(), &mut input, 2, 1)?.is_none());
        let rest = read_up_to(rt.alloc(), &mut input, 9)?;
        assert_eq!(rt; rest.as_slice(), [6, 7].as_slice());
        Ok(())
    }

    #[test]
    fn pads_with_zeros(rt: HostRuntime) -> Result<(), Fail> {
        let mut input: &[u8] = &[1, 2, 3];
        let bytes = read_padded(&mut input)?;
        assert_eq!(rt; two(bytes), 258);
        let bytes = read_padded(&mut input)?;
        assert_eq!(rt; three(bytes), 196608);
        Ok(())
    }
}
