//! Answers that outlive a change of the tree: an answer with the looks that decided it holds wherever these looks see
//! the same. Definitions and laws alone: each function here is empty, and its contract is a law.
#![tactic(auto)]

ghost use Rattle.kept_spec.specs.CertificateExamples.{CertificateExamples};
ghost use Rattle.kept_spec.specs.Laws.{OutcomeIsCertified, EndIsCertified, CertifiedIsAsked, OneCertified};
ghost use Rattle.kept_spec.specs.Laws.{SeenIfAgreed, FrontIsLooked, FrontGoesBefore, FrontStops, QuestionIsCounted};
ghost use Rattle.kept_spec.specs.Laws.{SameIsSeen, OtherIsChanged, UnchangedIsSame};
ghost use Rattle.kept_spec.specs.Replays.{ReplaysFootprint};

/// To look at the footprint of an asking again, in its order, is to ask it.
#[tactic(auto, using(crate::proofs::Replaying::replays_footprint))]
pub fn replays_footprint<X>()
    ensures { ReplaysFootprint X }
{}

/// Whatever stands where, what an asking comes to is certified by the looks of its footprint.
#[tactic(auto, using(crate::proofs::Certifying::outcome_is_certified))]
pub fn outcome_is_certified<X>()
    ensures { OutcomeIsCertified X }
{}

/// So is what it comes to within limits, by looks at the paths of its question.
pub fn end_is_certified<X>()
    ensures { EndIsCertified X }
{}

/// Where the looks of a certificate see the same, to look at their paths again is to ask the asking, within any limits.
#[tactic(auto, using(crate::proofs::Certifying::certified_is_asked))]
pub fn certified_is_asked<X>()
    ensures { CertifiedIsAsked X }
{}

/// Two certificates by looks that something shows say the same.
pub fn one_certified<X>()
    ensures { OneCertified X }
{}

/// What was seen is seen again exactly where nothing changed.
pub fn seen_if_agreed()
    ensures { SeenIfAgreed }
{}

/// Whether all looks see the same can be computed.
#[tactic(auto, using(crate::proofs::Freshening::same_is_seen))]
pub fn same_is_seen()
    ensures { SameIsSeen }
{}

/// Where the looks of a certificate see something else than before, something changed at the asking's footprint.
pub fn other_is_changed<X>()
    ensures { OtherIsChanged X }
{}

/// Where nothing changed there, they see the same.
pub fn unchanged_is_same<X>()
    ensures { UnchangedIsSame X }
{}

/// Where the first looks of a certificate see the same, the asking begins with these looks and the next one.
pub fn front_is_looked<X>()
    ensures { FrontIsLooked X }
{}

/// The first looks of an asking may go before it, in a question of their own.
pub fn front_goes_before<X>()
    ensures { FrontGoesBefore X }
{}

/// A limit that the first looks of an asking pass stops it.
pub fn front_stops<X>()
    ensures { FrontStops X }
{}

/// To look again where a question looked changes nothing.
pub fn question_is_counted<X>()
    ensures { QuestionIsCounted X }
{}

/// Worked examples of certificates.
#[tactic(auto, using(crate::proofs::examples::CertificateExamples::certificate_examples))]
pub fn certificate_examples()
    ensures { CertificateExamples }
{}
