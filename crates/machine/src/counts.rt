// What a process has counted since its last request, getname steps and return operations together.
ghost use Rattle.std.specs.Prelude.{◌≡◌, ◌≤◌};
ghost use Rattle.machine.specs.Room;
ghost use Rattle.machine.specs.State;

use crate::Process;

impl Process {
    // Has it room for one more? The test is in bytes: one number against what the other leaves of 255.
    pub fn has_room(self) -> bool
        ensures { result ≡ Room.has_room self }
    {
        self.returns < 255 - self.steps
    }

    // The sum in range, which the journal and the status records show.
    pub fn figure(self) -> u8
        requires { State.figure self ≤ 255 }
        ensures { result ≡ State.figure self }
    {
        self.steps + self.returns
    }
}
