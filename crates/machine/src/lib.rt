//! What it means that two runs show the same. The definitions stand in `specs/`, and each function
//! here is a law about them: it does nothing, and its contract is what was proved.
#![tactic(auto)]

ghost use Rattle.machine.specs.Laws.{FrontsAreAnOrder, TwoWayComposes, TwoWayShares, EndsStay};
ghost use Rattle.machine.specs.Laws.{WordsMayBeDropped, SimulationsShowTheSame};
ghost use Rattle.machine.specs.Laws.{FrameGivesAgreement, AgreementGoesOn};
ghost use Rattle.machine.specs.Examples.{SmallFronts, LooseFrontsDoNotCompose, SmallRuns};
ghost use Rattle.machine.specs.Examples.{SmallAgreements, StepsAreNotSeen};

/// What a run has shown is compared by fronts, which are an order.
pub fn fronts_are_an_order()
    ensures { FrontsAreAnOrder }
{}

/// Two-way runs compose, so that a chain of changes, each of which keeps what is shown, keeps it.
pub fn two_way_composes()
    ensures { TwoWayComposes }
{}

/// Two-way runs have the same events and the same end, or neither ends.
pub fn two_way_shares()
    ensures { TwoWayShares }
{}

/// A run that only adds to what it has shown changes nothing after its end.
pub fn ends_stay()
    ensures { EndsStay }
{}

/// The words of returns may be dropped from two-way runs.
pub fn words_may_be_dropped()
    ensures { WordsMayBeDropped }
{}

/// Machines whose related states show the same and go on to related states show the same runs.
pub fn simulations_show_the_same()
    ensures { SimulationsShowTheSame }
{}

/// The frame law and a two-way run of the frame give agreement.
pub fn frame_gives_agreement()
    ensures { FrameGivesAgreement }
{}

/// What is two-way with a run that agrees agrees too.
pub fn agreement_goes_on()
    ensures { AgreementGoesOn }
{}

/// Which small traces are fronts of which.
pub fn small_fronts()
    ensures { SmallFronts }
{}

/// Why fronts compare words exactly: a comparison that lets a missing word pass doesn't compose.
pub fn loose_fronts_do_not_compose()
    ensures { LooseFrontsDoNotCompose }
{}

/// Waiting is not seen, but waiting for ever is not returning.
pub fn small_runs()
    ensures { SmallRuns }
{}

/// Agreement on small runs, also after the source ended outside.
pub fn small_agreements()
    ensures { SmallAgreements }
{}

/// Two machines that call without end, one of them with idle steps between.
pub fn steps_are_not_seen()
    ensures { StepsAreNotSeen }
{}
