// Pieces, copies and zeros in a lent buffer.

#![tactic(auto)]

ghost use Rattle.std.specs.Prelude.{◌≡◌, ◌++◌, ◌+◌, ◌-◌, ◌≤◌, length, take, drop, replicate};
ghost use Rattle.memory.specs.Splice.{splice};

/// Copies `piece` over `buffer`, from byte `at` on. Every other byte stays.
pub fn put(piece: &[u8], buffer: &mut [u8], at: usize)
    requires { at + length piece.now ≤ length buffer.old }
    ensures { buffer.new ≡ splice at piece.now buffer.old }
{
    buffer[at..at + piece.len()].copy_from_slice(piece);
}

/// Copies `piece` over the front of `buffer`, as far as it fits. Every other byte stays.
pub fn put_fitting(piece: &[u8], buffer: &mut [u8])
    ensures { buffer.new ≡ splice 0 (take (length buffer.old) piece.now) buffer.old }
{
    let n = piece.len().min(buffer.len());
    put(&piece[..n], buffer, 0);
}

/// Copies `count` bytes of `buffer` from byte `from` on to byte `to`, lower or higher. The two may overlap. Every
/// other byte stays.
pub fn shift(buffer: &mut [u8], from: usize, to: usize, count: usize)
    requires source { from + count ≤ length buffer.old }
    requires target { to + count ≤ length buffer.old }
    ensures { buffer.new ≡ splice to (take count (drop from buffer.old)) buffer.old }
{
    buffer.copy_within(from..from + count, to);
}

/// Sets every byte of `buffer` from byte `start` on to 0. Those before it stay.
pub fn clear_from(buffer: &mut [u8], start: usize)
    requires { start ≤ length buffer.old }
    ensures { buffer.new ≡ take start buffer.old ++ replicate (length buffer.old - start) 0 }
{
    buffer[start..].fill(0);
}

/// Sets every byte of `buffer` to 0.
pub fn clear(buffer: &mut [u8])
    ensures { buffer.new ≡ replicate (length buffer.old) 0 }
{
    buffer.fill(0);
}

/// A lent buffer that is written piece after piece.
#[derive(Drop)]
pub struct Writer<'a> {
    /// The buffer.
    pub out: &'a mut [u8],
    /// How many of its bytes are written: the next piece goes to this byte.
    pub end: usize,
    ghost within: { end ≤ length out.now },
}

impl<'a> Writer<'a> {
    ghost use Rattle.memory.specs.Written.{Room, Written};

    /// A writer of this buffer, of which nothing is written yet.
    pub fn new(out: &'a mut [u8]) -> Self
        ensures empty { result.end ≡ 0 }
        ensures lent { result.out ≡ out.entry }
    {
        Writer { out, end: 0 }
    }

    /// Writes `piece` after what is written. Every other byte of the buffer stays.
    pub fn put(&mut self, piece: &[u8])
        requires { Room piece.now self.old }
        ensures { Written piece.now self.old self.new }
    {
        put(piece, self.out, self.end);
        self.end += piece.len();
    }

    /// The bytes that are written, from the buffer's front on.
    pub fn written(&self) -> &[u8]
        ensures { result.now ≡ take self.now.end self.now.out.now }
    {
        &self.out[..self.end]
    }
}
