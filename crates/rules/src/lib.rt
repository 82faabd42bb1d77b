// Scripts, tables and calls on bytes: the definitions stand in specs/. Each function has an empty body: its contract is
// a law about them.

#![tactic(auto)]

ghost use Rattle.rules.specs.Cases.{Cases};
ghost use Rattle.rules.specs.Examples.{Examples};
ghost use Rattle.rules.specs.CallExamples.{CallExamples};
ghost use Rattle.rules.specs.NumberExamples.{NumberExamples};
ghost use Rattle.rules.specs.FoundExamples.{FoundExamples};
ghost use Rattle.rules.specs.CreatorExamples.{CreatorExamples};
ghost use Rattle.rules.specs.ProfileExamples.{ProfileExamples};
ghost use Rattle.rules.specs.PreviewExamples.{PreviewExamples};
ghost use Rattle.rules.specs.InForceExamples.{InForceExamples};
ghost use Rattle.rules.specs.PacketExamples.{PacketExamples};
ghost use Rattle.rules.specs.OfficeExamples.{OfficeExamples};
ghost use Rattle.rules.specs.WordExamples.{WordExamples};

/// The worked cases A to L: tables and scripts with what each call answers of them, byte for byte.
#[tactic(auto, using(crate::proofs::Cases::cases))]
pub fn worked_cases()
    ensures { Cases }
{}

/// What each question refuses and lets pass, by examples, byte for byte.
#[tactic(auto, using(crate::proofs::Examples::examples))]
pub fn question_examples()
    ensures { Examples }
{}

/// What each call answers and leaves in its buffers, and what a report prints, by examples.
#[tactic(auto, using(crate::proofs::CallExamples::call_examples))]
pub fn call_examples()
    ensures { CallExamples }
{}

/// Whole numbers: sums, comparisons, who may read them and what a sheet shows of them, by examples.
#[tactic(auto, using(crate::proofs::NumberExamples::number_examples))]
pub fn number_examples()
    ensures { NumberExamples }
{}

/// Cases that find their type, by examples.
#[tactic(auto, using(crate::proofs::FoundExamples::found_examples))]
pub fn found_examples()
    ensures { FoundExamples }
{}

/// Creators and indirect creators, and files of the earlier forms rewritten, by examples.
#[tactic(auto, using(crate::proofs::CreatorExamples::creator_examples))]
pub fn creator_examples()
    ensures { CreatorExamples }
{}

/// The check of the profile, by examples.
#[tactic(auto, using(crate::proofs::ProfileExamples::profile_examples))]
pub fn profile_examples()
    ensures { ProfileExamples }
{}

/// Previews and the moves that take them, by examples.
#[tactic(auto, using(crate::proofs::PreviewExamples::preview_examples))]
pub fn preview_examples()
    ensures { PreviewExamples }
{}

/// Lists of scripts and of amendments, and the script in force, by examples.
#[tactic(auto, using(crate::proofs::InForceExamples::in_force_examples))]
pub fn in_force_examples()
    ensures { InForceExamples }
{}

/// Loan packets, by examples.
#[tactic(auto, using(crate::proofs::PacketExamples::packet_examples))]
pub fn packet_examples()
    ensures { PacketExamples }
{}

/// Old office scripts, in and out, by examples.
#[tactic(auto, using(crate::proofs::OfficeExamples::office_examples))]
pub fn office_examples()
    ensures { OfficeExamples }
{}

/// A studio's own words, by examples.
#[tactic(auto, using(crate::proofs::WordExamples::word_examples))]
pub fn word_examples()
    ensures { WordExamples }
{}
