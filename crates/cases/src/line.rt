// A line of output.
ghost use Rattle.std.specs.Prelude.{◌≡◌, ◌≤◌, ◌++◌, length, get_or, take, OnOk};
ghost use Rattle.std.specs.Io.KnownBytes.{Appends};
ghost use Rattle.cases.specs.Line.{line_of, size_in, put_in};

use lent::Text;
use std::array;
use std::io::{self, ErrorKind, Write};

// Puts a word, numbers and a line feed at a buffer's start, and answers how many bytes they take there. The last clause follows from the
// others, and is stated for whoever lends that many bytes on.
pub fn put_line(bytes: &mut [u8], word: &[u8], numbers: &[u64]) -> usize
    ensures size { result ≡ size_in bytes.old (line_of word.now numbers.now) }
    ensures bytes { bytes.new ≡ put_in bytes.old (line_of word.now numbers.now) }
    ensures prefix_len { (result ≤ length bytes.new) × (result ≡ length (take result bytes.new)) }
{
    let mut line = Text::new(bytes);
    line.put_fitting(word);
    for n in numbers {
        line.put_fitting(b" ");
        line.put_fitting(itoa::Buffer::new().format(*n).as_bytes());
    }
    line.put_fitting(b"\n");
    line.size
}

// Prints a line, or as much of it as 6,000 bytes hold.
pub fn print_line<W: Write>(output: &mut W, word: &str, numbers: &[u64]) -> io::Result<()>
    ensures { OnOk result (Appends (W.contents output.old) (W.contents output.new)
        (take 6000 (line_of word.now numbers.now))) }
{
    let mut line = [0; 6000];
    let size = put_line(&mut line, word.as_bytes(), numbers);
    output.write_all(&line[..size])
}

// Of numbers and the bytes behind them, the one at a place; 0 past their end. By places, since `put_line` takes a slice, and its one
// loop shows both.
fn number_at(numbers: &[u64], bytes: &[u8], place: usize) -> u64
    ensures { result ≡ get_or (numbers.now ++ bytes.now) place 0 }
{
    match place.checked_sub(numbers.len()) {
        None => numbers[place],
        Some(behind) => bytes.get(behind).map_or(0, |&byte| byte.into()),
    }
}

// Prints a line of numbers and the bytes behind them, as print_line does; an error where they are more than 512.
pub fn print_bytes<W: Write>(
    output: &mut W,
    word: &str,
    numbers: &[u64],
    bytes: &[u8],
) -> io::Result<()>
    ensures { OnOk result (Appends (W.contents output.old) (W.contents output.new)
        (take 6000 (line_of word.now (numbers.now ++ bytes.now)))) }
{
    let shown: [u64; 512] = array::from_fn(|place| number_at(numbers, bytes, place));
    let shown = shown
        .get(..numbers.len() + bytes.len())
        .ok_or(ErrorKind::InvalidInput)?;
    print_line(output, word, shown)
}
