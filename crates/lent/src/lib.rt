// A lent buffer that is filled from its start.
#![tactic(auto)]

ghost use Rattle.std.specs.Prelude.{◌≡◌, ◌+◌, ◌-◌, ◌≤◌, length, take};
ghost use Rattle.lent.specs.Text.{Appends};

// What is put into a buffer, from its start. No Vec: the memory is lent, and there is no heap. That there is room is of each text that is
// put, and so a clause.
#[derive(Drop)]
pub struct Text<'a> {
    pub buffer: &'a mut [u8],
    pub size: usize,
}

impl<'a> Text<'a> {
    // No text, in a buffer.
    pub fn new(buffer: &'a mut [u8]) -> Text<'a>
        ensures same_buffer { result.buffer.ghost_name ≡ buffer.entry.ghost_name }
        ensures bytes { result.buffer.now ≡ buffer.old }
        ensures empty { result.size ≡ 0 }
    {
        Text { buffer, size: 0 }
    }

    // Puts bytes behind those that are there.
    pub fn put(&mut self, bytes: &[u8])
        requires { self.old.size + length bytes.now ≤ length self.old.buffer.now }
        ensures { Appends self.old self.new bytes.now }
    {
        let end = self.size + bytes.len();
        self.buffer[self.size..end].copy_from_slice(bytes);
        self.size = end;
    }

    // Puts as many of the bytes behind those that are there as fit. The others are dropped.
    pub fn put_fitting(&mut self, bytes: &[u8])
        requires { self.old.size ≤ length self.old.buffer.now }
        ensures { Appends self.old self.new (take (length self.old.buffer.now - self.old.size) bytes.now) }
    {
        let fitting = bytes.len().min(self.buffer.len() - self.size);
        self.put(&bytes[..fitting]);
    }
}
