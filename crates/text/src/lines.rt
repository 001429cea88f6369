// The lines of a journal, one for each four bytes.
ghost use Rattle.std.specs.Prelude.{◌≡◌, ◌+◌, ◌<◌, ◌≤◌, length, MatchResult};
ghost use Rattle.std.specs.List.{flat_map};
ghost use Rattle.lent.specs.Text.{Appends};
ghost use Rattle.machine.specs.Outcome.{as_written};
ghost use Rattle.text.specs.Lines.{entry_line, lines};
ghost use Rattle.text.specs.Lent.{given, lent_after};

use crate::figures::{figure_len, put_figure};
use lent::Text;
use machine::Refusal;

// How many bytes the line of an entry takes.
fn line_len(entry: &[u8; 4]) -> usize
    ensures { result ≡ length (entry_line entry.now) }
{
    let [answer, stage, name, sum] = *entry;
    figure_len(answer) + figure_len(stage) + figure_len(name) + figure_len(sum)
}

// Short where the entries' lines take more than so many bytes.
fn check_room(entries: &[[u8; 4]], room: usize) -> Result<(), Refusal>
    ensures { MatchResult result (λ _. length (flat_map entry_line entries.now) ≤ room)
        (λ why. (why ≡ Refusal.Short) × (room < length (flat_map entry_line entries.now))) }
{
    entries
        .iter()
        .try_fold(room, |left, entry| {
            left.checked_sub(line_len(entry)).ok_or(Refusal::Short)
        })
        .map(|_| ())
}

// Puts the line of an entry.
fn put_line(text: &mut Text, entry: &[u8; 4])
    requires { text.old.size + length (entry_line entry.now) ≤ length text.old.buffer.now }
    ensures { Appends text.old text.new (entry_line entry.now) }
{
    let [answer, stage, name, sum] = *entry;
    put_figure(text, answer, b' ');
    put_figure(text, stage, b' ');
    put_figure(text, name, b' ');
    put_figure(text, sum, b'\n');
}

// The text of a journal; 13 when the buffer is shorter than the text.
pub fn journal_text(journal: &[u8], out: &mut [u8]) -> Result<usize, Refusal>
    ensures value { as_written result ≡ given (lines journal.now) out.old }
    ensures buffer { out.new ≡ lent_after (lines journal.now) out.old }
{
    let (entries, _) = journal.as_chunks();
    check_room(entries, out.len())?;
    let mut text = Text::new(out);
    for entry in entries {
        put_line(&mut text, entry);
    }
    Ok(text.size)
}
