// What can't be learned from a script that runs to a value, nor changed in what it comes to. Each function has an empty
// body: its contract is a law about the definitions in specs/.

#![tactic(auto)]

ghost use Rattle.noninterference.specs.Noninterference.{NothingLearned, OneValue, OneMade};
ghost use Rattle.noninterference.specs.Hidden.{AlikeRunsEndAlike, AlikeAtAPlace};
ghost use Rattle.noninterference.specs.Observers.{ReadersObserve, WhoTrustsObserves, ExactObserves, ClearIsOne};
ghost use Rattle.noninterference.specs.Pairs.{TypesOfPairs, ReadersAloneHideNothing, ArgumentsHideNothing, RecursionsHideNothing, SecretsHide, OthersHide, ReadersDoNotHeed, WhoTrustsDoesNotHeed};

/// Two terms that an observer can't tell apart, and that both run to a value, run to values that he can't tell apart.
#[tactic(auto, using(crate::proofs::Alike::alike_runs_end_alike))]
pub fn alike_runs_end_alike()
    ensures { AlikeRunsEndAlike }
{}

/// Terms are alike that are one but for what stands at one place, where that is alike.
#[tactic(auto, using(crate::proofs::ObserverLaws::alike_at_a_place))]
pub fn alike_at_a_place()
    ensures { AlikeAtAPlace }
{}

/// Those who read as a group are observers, and so are those who trust a group, also where they keep every label.
#[tactic(auto, using(crate::proofs::ObserverLaws::readers_observe, crate::proofs::ObserverLaws::who_trusts_observes, crate::proofs::ObserverLaws::exact_observes))]
pub fn observers()
    ensures readers { ReadersObserve }
    ensures who_trusts { WhoTrustsObserves }
    ensures exact { ExactObserves }
{}

/// What is like a term in every label is that term, where nothing in it is hidden.
#[tactic(auto, using(crate::proofs::ObserverLaws::clear_is_one))]
pub fn clear_is_one()
    ensures { ClearIsOne }
{}

/// What is alike to an observer: what secrets hide, cases by them and protects too, or what others made or read; and
/// labels that he does not heed.
#[tactic(auto, using(crate::proofs::Pairs::secrets_hide, crate::proofs::Pairs::others_hide, crate::proofs::Pairs::readers_do_not_heed, crate::proofs::Pairs::who_trusts_does_not_heed))]
pub fn told_alike()
    ensures secrets { SecretsHide }
    ensures others { OthersHide }
    ensures unheeded_by_readers { ReadersDoNotHeed }
    ensures unheeded_by_who_trusts { WhoTrustsDoesNotHeed }
{}

/// What is not, as it shows when it runs: differences in what is closed by r alone, an argument of an application, a
/// recursion by its group.
#[tactic(auto, using(crate::proofs::Pairs::types_of_pairs, crate::proofs::Pairs::readers_alone_hide_nothing, crate::proofs::Pairs::arguments_hide_nothing, crate::proofs::Pairs::recursions_hide_nothing))]
pub fn told_apart()
    ensures table { TypesOfPairs }
    ensures readers_alone { ReadersAloneHideNothing }
    ensures arguments { ArgumentsHideNothing }
    ensures recursions { RecursionsHideNothing }
{}

/// Of a script whose type shows nothing of a part's, two runs with one part or another end in one value; so its kinds
/// of record are the same, in the same order, and its numbers.
#[tactic(auto, using(crate::proofs::Noninterference::one_value, crate::proofs::Noninterference::nothing_learned))]
pub fn nothing_learned()
    ensures one_value { OneValue }
    ensures same_records { NothingLearned }
{}

/// The same of creators: of a script that a group made whole, two runs with one part or another that others made end in
/// one value.
#[tactic(auto, using(crate::proofs::Noninterference::one_made))]
pub fn one_made()
    ensures { OneMade }
{}
