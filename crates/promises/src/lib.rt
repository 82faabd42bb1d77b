// What is promised of scripts and their runs, over the rules and the calculus. Each function has an empty body: its
// contract is a law about the definitions in specs/.

#![tactic(auto)]

ghost use Rattle.noninterference.specs.Observers.{reader_at, who_trusts};
ghost use Rattle.promises.specs.Promises.{CallsAnswer, Acceptance, AcceptedRuns};
ghost use Rattle.promises.specs.Comparison.{Comparisons};
ghost use Rattle.promises.specs.CommonTypes.{CommonTypes};
ghost use Rattle.promises.specs.Profile.{PageScripts};
ghost use Rattle.promises.specs.Preview.{PreviewedMoves};
ghost use Rattle.promises.specs.Closed.{ClosedObjectsClose};
ghost use Rattle.promises.specs.InForce.{Amendments};
ghost use Rattle.promises.specs.Office.{Importing, Exporting, ImportingCalled, ImportedAsBefore};
ghost use Rattle.promises.specs.Packet.{PacketsByHand};
ghost use Rattle.promises.specs.Migration.{Migration};
ghost use Rattle.promises.specs.Noninterference.{Noninterference, OneMade};
ghost use Rattle.promises.specs.Exchange.{SheetsTellNothing, PartUnread, SamePages, LastAlike, LastIsOne, reader_exactly, who_trusts_exactly, PartUnmade};

/// Any groups table, types table or script, of any bytes and lengths, gets an answer from every call: yes, or the
/// number and place of the first question that is answered no. A call that refuses changes no lent byte, but for a work
/// buffer that is in use: typing leaves it as zeros.
#[tactic(auto, using(crate::proofs::Promises::calls_answer))]
pub fn every_call_answers()
    ensures { CallsAnswer }
{}

/// A script is accepted exactly where the typing rules, within the limits, give it a type, and the reported type is the
/// lowest that they give. Each step, and so each run, goes to the term that the reduction rules name.
#[tactic(auto, using(crate::proofs::Promises::acceptance))]
pub fn accepted_by_the_rules()
    ensures { Acceptance }
{}

/// The run of an accepted script, in buffers with room for it, isn't refused and never ends 2 or 3; what it reaches has
/// a type at or below the reported one; and the script without its access marks runs to the same end in as many steps,
/// to the same last term without marks.
#[tactic(auto, using(crate::proofs::Promises::accepted_runs))]
pub fn accepted_run()
    ensures { AcceptedRuns }
{}

/// The comparison of two types answers same exactly where they are equal in every record, and neither exactly where
/// subtyping doesn't relate them; its answer is the least of those of the first records and of the sides.
#[tactic(auto, using(crate::proofs::Comparison::comparisons))]
pub fn comparisons()
    ensures { Comparisons }
{}

/// Two types have a common type above both, or below both, exactly where their kinds agree; what is found is the
/// nearest among all types.
#[tactic(auto, using(crate::proofs::CommonTypes::common_types))]
pub fn common_types()
    ensures { CommonTypes }
{}

/// The profile accepts exactly the accepted scripts without a recursion, and each of them has a number of steps after
/// which a value stands.
#[tactic(auto, using(crate::proofs::Promises::page_scripts))]
pub fn page_scripts()
    ensures { PageScripts }
{}

/// A move that is given what the preview answered answers and leaves what the single step does; any other preview is
/// taken just where its end and record count are the step's.
#[tactic(auto, using(crate::proofs::Promises::previewed_moves))]
pub fn preview_then_move()
    ensures { PreviewedMoves }
{}

/// Two values have one sheet for a reader group exactly where they differ only inside objects that are closed to it in
/// both, and in what a sheet never shows: creators, numbers of types, bodies of functions.
#[tactic(auto, using(crate::proofs::Closed::closed_objects_close))]
pub fn closed_objects_close()
    ensures { ClosedObjectsClose }
{}

/// Of lists that pass, following replacements from a script that an entry names first ends; that end is the answer, its
/// type is the first's or below it, and a script that no entry names first has none.
#[tactic(auto, using(crate::proofs::InForce::amendments))]
pub fn amendments()
    ensures { Amendments }
{}

/// An import gives each variable the number of the nearest binder of its name, and there is no other such script. An
/// export, imported, is the script, where c and ic are group 0.
#[tactic(auto, using(crate::proofs::OfficeCallers::importing, crate::proofs::OfficeCallers::exporting))]
pub fn import_and_export()
    ensures import { Importing }
    ensures export { Exporting }
{}

/// Old office scripts whose recursions got their callers are refused as before, or imported as before with the callers
/// put in; and what is imported is checked and runs as it did in the earlier form.
#[tactic(auto, using(crate::proofs::OfficeCallers::importing_called, crate::proofs::OfficeCallers::imported_as_before))]
pub fn old_office_scripts()
    ensures called { ImportingCalled }
    ensures as_before { ImportedAsBefore }
{}

/// A packet is what building the application by hand, running it and taking its sheet gives; its questions leave out
/// only applications that checking or a run would refuse.
#[tactic(auto, using(crate::proofs::Promises::packets_by_hand))]
pub fn packets_by_hand()
    ensures { PacketsByHand }
{}

/// A script of an earlier form, rewritten, is refused with the same question and place or has the same type, and goes
/// the same steps to the same end; its last term is the earlier one's, rewritten.
#[tactic(auto, using(crate::proofs::Migration::migration))]
pub fn earlier_scripts()
    ensures { Migration }
{}

/// Secrecy. A reader at a group is shown the same sheet of two scripts that differ only in what has ir ⋢ the group, if
/// both runs end 0.
#[tactic(auto, using(crate::proofs::Exchange::sheets_tell_nothing))]
pub fn sheets_tell_nothing()
    ensures { SheetsTellNothing }
{}

/// The same of two parts at one place, each of which begins with such a record.
#[tactic(auto, using(crate::proofs::Exchange::part_unread))]
pub fn part_unread()
    ensures { PartUnread }
{}

/// The same of two loan packets: they have one page.
#[tactic(auto, using(crate::proofs::Exchange::same_pages))]
pub fn same_pages()
    ensures { SamePages }
{}

/// What the last terms of such scripts have in common: all that isn't hidden; so they are one where nothing is.
#[tactic(auto, using(crate::proofs::Exchange::read_alike, crate::proofs::Exchange::read_exactly_alike, crate::proofs::Exchange::read_as_one))]
pub fn read_alike()
    ensures alike { LastAlike reader_at }
    ensures in_every_label { LastAlike reader_exactly }
    ensures one { LastIsOne reader_at }
{}

/// Integrity. Two scripts that differ only in what others than those who are trusted made, or in what was read as
/// others, come to last terms that differ only in that; so they are one where nothing is so.
#[tactic(auto, using(crate::proofs::Exchange::made_alike, crate::proofs::Exchange::made_exactly_alike, crate::proofs::Exchange::made_as_one))]
pub fn made_alike()
    ensures alike { LastAlike who_trusts }
    ensures in_every_label { LastAlike who_trusts_exactly }
    ensures one { LastIsOne who_trusts }
{}

/// The same of two parts at one place, each of which begins with a record that others made, or that reads as others.
#[tactic(auto, using(crate::proofs::Exchange::part_unmade))]
pub fn part_unmade()
    ensures { PartUnmade }
{}

/// By types. A part that the whole script's type shows nothing of may be exchanged: both runs end in one value. And
/// what these words say of bytes and of terms is one.
#[tactic(auto, using(crate::proofs::Noninterference::nothing_learned_of_scripts))]
pub fn nothing_learned()
    ensures { Noninterference }
{}

/// The same of a part that others made, in a script that a group made whole.
#[tactic(auto, using(crate::proofs::Noninterference::one_made_of_scripts))]
pub fn one_made()
    ensures { OneMade }
{}
