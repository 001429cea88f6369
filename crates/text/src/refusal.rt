// The line of a refused file.
ghost use Rattle.std.specs.Prelude.{◌≡◌};
ghost use Rattle.machine.specs.Outcome.{as_written};
ghost use Rattle.machine.specs.Refusal.{number};
ghost use Rattle.text.specs.Lines.{refused};
ghost use Rattle.text.specs.Lent.{given, lent_after};

use crate::figures::{figure_len, put_figure};
use lent::Text;
use machine::Refusal;

const REFUSED: &[u8; 8] = b"refused ";

// `refused n`; 13 when the buffer is shorter than that.
pub(crate) fn refused_text(why: Refusal, out: &mut [u8]) -> Result<usize, Refusal>
    ensures value { as_written result ≡ given (refused (number why)) out.old }
    ensures buffer { out.new ≡ lent_after (refused (number why)) out.old }
{
    let n = u8::from(why);
    if out.len() < REFUSED.len() + figure_len(n) {
        return Err(Refusal::Short);
    }
    let mut text = Text::new(out);
    text.put(REFUSED);
    put_figure(&mut text, n, b'\n');
    Ok(text.size)
}
