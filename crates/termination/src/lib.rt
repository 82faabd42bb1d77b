// A typed script without a recursion comes to a value. The one function here has an empty body: its contract is that
// law.

#![tactic(auto)]

ghost use Rattle.termination.specs.Termination.{Terminates};

/// A typed closed term without a recursion has a number of steps after which a value stands, whatever its size.
#[tactic(auto, using(crate::proofs::Termination::terminates))]
pub fn terminates()
    ensures { Terminates }
{}
