// The kinds of event, and the byte that stands for each; behind each, document 01's word.
ghost use Rattle.std.specs.Prelude.{◌≡◌};
ghost use Rattle.machine.specs.Kind.{code, Decodes};

use crate::Refusal;

#[derive(Clone, Copy, Debug, PartialEq, Eq)]
pub enum Kind {
    Request = 0, // ask
    Step = 1, // turn
    Release = 2, // finish
}

impl From<Kind> for u8 {
    ghost from_gives = { λ k n. n ≡ code k };

    fn from(k: Kind) -> u8 {
        k as u8
    }
}

// Kinds 0 to 2; any other number is refused.
impl TryFrom<u8> for Kind {
    type Error = Refusal;

    ghost try_from_gives = { Decodes };

    fn try_from(n: u8) -> Result<Kind, Refusal> {
        match n {
            0 => Ok(Kind::Request),
            1 => Ok(Kind::Step),
            2 => Ok(Kind::Release),
            _ => Err(Refusal::Kind),
        }
    }
}
