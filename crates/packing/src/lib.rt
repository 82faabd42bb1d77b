// An exported answer as one number.

#![tactic(auto)]

ghost use Rattle.std.specs.Prelude.{◌≡◌, ℕ, ◌+◌, ◌*◌, ◌^◌, ◌≤◌, ◌<◌, take, length, IfErr};
ghost use Rattle.memory.specs.Splice.{splice};
ghost use Rattle.rules.specs.Answer.{Bytes};
ghost use Rattle.answer.specs.Said.{answer_of};
ghost use Rattle.packing.specs.Packed.{half, packed_number, end_and_count, steps_width, steps_in, steps_of};
ghost use Rattle.packing.specs.Held.{OneNumberHolds};

use answer::Refusal;

const HALF: u64 = 4294967296;

const QUARTER: usize = 65536;

/// A refusal as a number: the question in the upper half and the place, of less than 2^32, in the lower.
pub fn refusal(question: u8, place: usize) -> u64
    requires { place < half }
    ensures { result ≡ question * half + place }
{
    u64::from(question) * HALF + (place as u64)
}

/// A call's outcome as the number that it hands to C: what it counted, or of a refusal the question's number times
/// 2^32 plus the place. A count of less than 2^32 leaves the upper half 0, so that a caller reads off which of the
/// two it is.
pub fn answer(outcome: Result<usize, Refusal>) -> u64
    requires { IfErr outcome (λ refusal. refusal.place < half) }
    ensures { result ≡ packed_number (answer_of outcome) }
{
    match outcome {
        Ok(n) => n as u64,
        Err(e) => refusal(e.question.number(), e.place),
    }
}

/// A run's or a step's end and its record count as one count: the end times 65,536, plus the records.
pub fn end_and_count(end: u8, count: usize) -> usize
    requires { count < half }
    ensures { result ≡ end_and_count end count }
{
    usize::from(end) * QUARTER + count
}

// Copies a piece over the front of a buffer, as far as it fits. It is never inlined: where the compiler sees that both
// ends of a copy lie apart, it asks the C library for memcpy, a name that libwigneld.a has no other need of.
#[inline(never)]
fn put_fitting(piece: &[u8], buffer: &mut [u8])
    ensures { buffer.new ≡ splice 0 (take (length buffer.old) piece.now) buffer.old }
{
    memory::put_fitting(piece, buffer);
}

/// Writes a step count into `steps` as 8 bytes, lowest byte first: as many of them as the slice has. Bytes past the
/// eighth are kept.
#[tactic(auto, using(crate::proofs::Steps::steps_bytes))]
pub fn put_steps(count: u64, steps: &mut [u8])
    ensures { steps.new ≡ steps_in count steps.old }
{
    put_fitting(&count.to_le_bytes(), steps);
}

/// The step count that the first 8 bytes of a slice hold, lowest byte first; bytes that it hasn't are 0. What
/// `put_steps` wrote into 8 bytes or more is read again, and `put_steps` of what is read leaves any slice as it
/// stands.
pub fn steps_of(steps: &[u8]) -> u64
    ensures value { result ≡ steps_of steps.now }
    ensures read_again { (n : ℕ) (old : Bytes) → n < 2 ^ 64 → steps_width ≤ length old → steps.now ≡ steps_in n old
        → result ≡ n }
    ensures kept { steps_in result steps.now ≡ steps.now }
{
    let mut bytes = [0; 8];
    put_fitting(steps, &mut bytes);
    u64::from_le_bytes(bytes)
}

/// One number holds what a check, a step, a run, a preview, a move, a page, a comparison, a rewriting, an import, an
/// export and the look-up of the script in force answer: a count of less than 2^32, or a question with a place of less
/// than 2^32. So a caller reads the answer off the number again, and its upper half is 0 just where nothing is refused.
#[tactic(auto, using(crate::proofs::Held::one_number_holds))]
pub fn one_number_holds()
    ensures { OneNumberHolds }
{}
