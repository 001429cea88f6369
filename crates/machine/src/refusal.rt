// Why a call is refused, and the number that stands for it; behind each, document 01's word.
ghost use Rattle.std.specs.Prelude.{◌≡◌};
ghost use Rattle.machine.specs.Refusal.{number, answered};

#[derive(Clone, Copy, Debug, PartialEq, Eq)]
pub enum Refusal {
    Processes = 1, // handsets
    Leaves = 2, // leaves
    Segments = 3, // rows
    Bits = 4, // bits
    Names = 5, // pads
    Stranger = 6, // stranger
    Busy = 7, // busy
    NotMoving = 8, // not moving
    NoNameHeld = 9, // no pad held
    NoDayFile = 10, // no day file
    Contents = 11, // contents
    Kind = 12, // kind
    Short = 13, // short
    Odd = 14, // odd
    BrokenState = 15, // broken state
    TooLong = 16, // document 02, a): the file would pass 32,768 bytes
    NoRoom = 17, // document 02, a): the buffer is shorter than the file
    SmallBuffer = 18, // document 02, d): the buffer is under 4,096 bytes
    ClosedName = 19, // document 02, e): a closed number is not below k
    NoneOpen = 20, // document 02, e): no pad stays open
}

impl From<Refusal> for u8 {
    ghost from_gives = { λ r n. n ≡ number r };

    fn from(r: Refusal) -> u8 {
        r as u8
    }
}

// What a call answers: 0, or the number of its refusal.
pub fn answered<T>(r: &Result<T, Refusal>) -> u8
    ensures { result ≡ answered r.now }
{
    match r {
        Ok(_) => 0,
        Err(why) => u8::from(*why),
    }
}
