// The layout of a day file: the contents first, then the setup and the events.
ghost use Rattle.std.specs.Prelude.{◌≡◌, ◌+◌, ◌≤◌, length, IfOk};
ghost use Rattle.day_file.specs.Layout.{head_size, is_marked, entry, is_entry, body_setup, layout_answer};
ghost use Rattle.day_file.specs.Layout.{word as Layout·word};
ghost use Rattle.machine.specs.Refusal.{answered};
ghost use Rattle.machine.specs.Setup.{plain_of};

use machine::{Numbers, Refusal};

// What a day file begins with.
pub const TURN: [u8; 4] = *b"TURN";

// What stands before the events.
pub const HEAD_SIZE: usize = 27;

// The bytes that a file has at most.
pub const LONGEST: usize = 32768;

// Four bytes at a place, low byte first: document 01 gives the layout by places in the file, here and in `is_entry`. Between u32 and usize
// there is no From: `as` keeps the number, and the check proves it.
#[tactic(auto, unfolding(crate::specs::Layout::word))]
pub fn word(file: &[u8], at: usize) -> u32
    requires { at + 4 ≤ length file.now }
    ensures { result ≡ Layout·word file.now at }
{
    u32::from_le_bytes([file[at], file[at + 1], file[at + 2], file[at + 3]])
}

// Bytes 0 to 4: the letters TURN, and 2, which document 01 names one by one.
#[tactic(auto, using(crate::proofs::Marks::marked))]
fn is_marked(file: &[u8]) -> bool
    requires { head_size ≤ length file.now }
    ensures { result ≡ is_marked file.now }
{
    file.starts_with(&TURN) && file[4] == 2
}

// Nine bytes at a place are this entry: its kind, where its body begins, and the body's size.
#[tactic(auto, unfolding(crate::specs::Layout::is_entry))]
fn is_entry(file: &[u8], at: usize, kind: u8, offset: usize, size: usize) -> bool
    requires { at + 9 ≤ length file.now }
    ensures { result ≡ is_entry file.now at (entry kind offset size) }
{
    file[at] == kind && word(file, at + 1) as usize == offset && word(file, at + 5) as usize == size
}

// The setup's four numbers in body 1 of a file that has the layout; 10 for its length or its first five bytes, 11 for an
// entry or an odd list.
#[tactic(auto, unfolding(crate::specs::Layout::layout_answer))]
pub(crate) fn numbers_in(file: &[u8]) -> Result<Numbers, Refusal>
    ensures answer { answered result ≡ layout_answer file.now }
    ensures numbers { IfOk result (λ n. plain_of n ≡ body_setup file.now) }
{
    if !(HEAD_SIZE..=LONGEST).contains(&file.len()) || !is_marked(file) {
        return Err(Refusal::NoDayFile);
    }
    let size = file.len() - HEAD_SIZE;
    if !is_entry(file, 5, 1, 23, 4) || !is_entry(file, 14, 2, 27, size) || size % 2 != 0 {
        return Err(Refusal::Contents);
    }
    // by their places, as document 01 gives them
    Ok(Numbers::from([file[23], file[24], file[25], file[26]]))
}
