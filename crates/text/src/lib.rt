// Text in an area that is lent: each piece goes behind what stands there already.
#![tactic(auto)]

ghost use Rattle.std.specs.Prelude.{◌≡◌, ◌+◌, ◌≤◌, length};
ghost use Rattle.model.specs.Bytes.{decimal};
ghost use Rattle.text.specs.Adds.{Grows};

use itoa::Buffer;

// The area, and where the text in it ends.
#[derive(Drop)]
pub struct Text<'a> {
    pub area: &'a mut [u8],
    pub end: usize,
}

impl<'a> Text<'a> {
    // No text yet.
    pub fn new(area: &'a mut [u8]) -> Text<'a>
        ensures same_area { result.area.ghost_name ≡ area.entry.ghost_name }
        ensures bytes { result.area.now ≡ area.old }
        ensures starts { result.end ≡ 0 }
    {
        Text { area, end: 0 }
    }

    pub fn put(&mut self, bytes: &[u8])
        requires { self.old.end + length bytes.now ≤ length self.old.area.now }
        ensures { Grows bytes.now self.old self.new }
    {
        let start = self.end;
        self.end += bytes.len();
        self.area[start..self.end].copy_from_slice(bytes);
    }

    // A number in decimal.
    pub fn decimal(&mut self, n: u64)
        requires { self.old.end + length (decimal n) ≤ length self.old.area.now }
        ensures { Grows (decimal n) self.old self.new }
    {
        self.put(Buffer::new().format(n).as_bytes());
    }
}
