// A byte in decimal, or `-` for 255, and what parts it from the next, in a lent buffer.
ghost use Rattle.std.specs.Prelude.{◌≡◌, ◌+◌, ◌≤◌, length};
ghost use Rattle.lent.specs.Text.{Appends};
ghost use Rattle.text.specs.Lines.{figure};

use lent::Text;

// Puts a figure and its end, digit by digit: tried with `itoa`, 4,432,591 in place of 2,694,948 instructions for a file's text, 2.28 times
// as long as the simulator in place of 0.93, where this stays under it.
#[tactic(auto, unfolding(crate::specs::Lines::figure, crate::specs::Lines::decimal))]
pub(crate) fn put_figure(text: &mut Text, x: u8, end: u8)
    requires { text.old.size + length (figure x end) ≤ length text.old.buffer.now }
    ensures { Appends text.old text.new (figure x end) }
{
    match x {
        255 => text.put(&[b'-', end]),
        0..=9 => text.put(&[b'0' + x, end]),
        10..=99 => text.put(&[b'0' + x / 10, b'0' + x % 10, end]),
        _ => text.put(&[b'0' + x / 100, b'0' + x / 10 % 10, b'0' + x % 10, end]),
    }
}

// How many bytes a figure takes, with its end.
#[tactic(auto, unfolding(crate::specs::Lines::figure, crate::specs::Lines::decimal))]
pub(crate) fn figure_len(x: u8) -> usize
    ensures size { result ≡ length (figure x 0) }
    ensures at_most { result ≤ 4 }
{
    match x {
        255 | 0..=9 => 2,
        10..=99 => 3,
        _ => 4,
    }
}
