// Numbers of n bytes in a slice, little-endian. Every law is shown for any n; callers use 2, 4 and 8.
#![tactic(auto)]

ghost use Rattle.std.specs.Prelude.{◌≡◌, ◌+◌, ◌^◌, ◌≤◌, ◌<◌, length};
ghost use Rattle.definitions.specs.Fields.{le};

// The number in the n bytes at a place. No `from_le_bytes`: it takes an array of one size, and n is any here.
fn number(s: &[u8], at: usize, n: usize) -> usize
    requires { (at + n ≤ length s.now) × (n ≤ 8) }
    ensures { (result ≡ le n s.now at) × (result < 256 ^ n) }
{
    let mut sum: usize = 0;
    for &byte in s[at..at + n].iter().rev() {
        sum = sum * 256 + byte as usize;
    }
    sum
}

// The caller's bytes together with a position in them.
#[derive(Clone, Copy)]
pub struct Reader<'a> {
    pub src: &'a [u8],
    pub at: usize,
}

impl<'a> Reader<'a> {
    // A reader of these bytes at this position; it need not stand within them.
    pub fn new(src: &'a [u8], at: usize) -> Reader<'a>
        ensures { (result.src ≡ src.entry) × (result.at ≡ at) }
    {
        Reader { src, at }
    }

    // The number in the n bytes at the reader's position.
    pub fn field(self, n: usize) -> usize
        requires { (self.at + n ≤ length self.src.now) × (n ≤ 8) }
        ensures { (result ≡ le n self.entry.src.now self.entry.at) × (result < 256 ^ n) }
    {
        number(self.src, self.at, n)
    }
}

// The same, for a caller that keeps no reader.
pub fn read(s: &[u8], at: usize, n: usize) -> usize
    requires { (at + n ≤ length s.now) × (n ≤ 8) }
    ensures { (result ≡ le n s.now at) × (result < 256 ^ n) }
{
    Reader::new(s, at).field(n)
}

// The u16 at a place.
pub fn read_u16(s: &[u8], at: usize) -> u16
    requires { at + 2 ≤ length s.now }
    ensures { result ≡ le 2 s.now at }
{
    read(s, at, 2) as u16
}
