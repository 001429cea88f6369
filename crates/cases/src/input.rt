// What the programs read of their input.
ghost use Rattle.std.specs.Prelude.{◌≡◌, ◌^◌, ◌<◌, ◌≤◌, IfOk, OnOk, length};
ghost use Rattle.std.specs.Int.{w32, to_le_bytes};
ghost use Rattle.std.specs.Io.KnownBytes.{Consumes};

use std::io::{self, ErrorKind, Read};

// The next N bytes; an error where the input ends before.
pub fn read<R: Read, const N: usize>(input: &mut R) -> io::Result<[u8; N]>
    ensures { IfOk result (λ bytes. Consumes (R.remaining input.old) (R.remaining input.new) bytes) }
{
    let mut bytes = [0; N];
    input.read_exact(&mut bytes)?;
    Ok(bytes)
}

// The next four bytes as a size, low byte first.
pub fn read_size<R: Read>(input: &mut R) -> io::Result<usize>
    ensures bytes { IfOk result (λ n. Consumes (R.remaining input.old) (R.remaining input.new) (to_le_bytes w32 n)) }
    ensures bound { IfOk result (λ n. n < 2 ^ 32) }
{
    // Rust has no From between u32 and usize
    Ok(u32::from_le_bytes(read(input)?) as usize)
}

// The next `size` bytes, at the start of a buffer; an error where they do not fit.
pub fn read_into<'a, R: Read>(
    input: &mut R,
    buffer: &'a mut [u8],
    size: usize,
) -> io::Result<&'a mut [u8]>
    ensures room { OnOk result (size ≤ length buffer.old) }
    ensures size { IfOk result (λ bytes. length bytes.now ≡ size) }
    ensures bytes { IfOk result (λ bytes. Consumes (R.remaining input.old) (R.remaining input.new) bytes.now) }
{
    let bytes = buffer.get_mut(..size).ok_or(ErrorKind::InvalidData)?;
    input.read_exact(bytes)?;
    Ok(bytes)
}
