//! JSON texts as ordered values: which value each text has, or its first fault, and how values are printed.
//!
//! Definitions and laws alone: each function here is empty, and its contract is a law.
#![tactic(auto)]

ghost use Rattle.json_spec.specs.Laws.{JsonIsRead, LongestNumber, MembersInOrder, NamesAreDistinct, OneJson};
ghost use Rattle.json_spec.specs.Laws.{PrintsNoMarkup, PrintsUtf8, SomeJson, StringsReadBack, TextsReadBack};
ghost use Rattle.json_spec.specs.Laws.{ValuesReadBack};
ghost use Rattle.json_spec.specs.WorkedExamples.{WorkedExamples};

/// A text has at most one outcome, a value or a first fault.
#[tactic(auto, using(crate::proofs::OneJson::one_json))]
pub fn one_json()
    ensures { OneJson }
{}

/// A text has an outcome.
#[tactic(auto, using(crate::proofs::SomeJson::some_json))]
pub fn some_json()
    ensures { SomeJson }
{}

/// The plain reader answers the one outcome of each text.
#[tactic(auto, using(crate::proofs::PlainReader::json_is_read))]
pub fn json_is_read()
    ensures { JsonIsRead }
{}

/// No object of a text's value holds a name twice, at any level.
#[tactic(auto, using(crate::proofs::DistinctNames::names_are_distinct))]
pub fn names_are_distinct()
    ensures { NamesAreDistinct }
{}

/// The number that is read at the front of some bytes is the longest front that the grammar of numbers has.
#[tactic(auto, using(crate::proofs::LongestNumber::longest_number))]
pub fn longest_number()
    ensures { LongestNumber }
{}

/// The order in which an object gives its members leaves none out and adds none: array indices by ascending number, and
/// then the others as they are written.
#[tactic(auto, using(crate::proofs::MembersInOrder::members_in_order))]
pub fn members_in_order()
    ensures { MembersInOrder }
{}

/// A printed string reads back as its text.
#[tactic(auto, using(crate::proofs::ReadBack::texts_read_back))]
pub fn texts_read_back()
    ensures { TextsReadBack }
{}

/// A printed string is a JSON text, and its value is that string, where the string is UTF-8.
#[tactic(auto, using(crate::proofs::ReadBack::strings_read_back))]
pub fn strings_read_back()
    ensures { StringsReadBack }
{}

/// A printed value reads back where its numbers are of the grammar, no object holds a name twice, its texts are UTF-8,
/// and it opens no more brackets at once than a text may.
#[tactic(auto, using(crate::proofs::ReadBack::values_read_back))]
pub fn values_read_back()
    ensures { ValuesReadBack }
{}

/// The printed text of such a value, however deep it is, is UTF-8.
#[tactic(auto, using(crate::proofs::ReadBack::prints_utf8))]
pub fn prints_utf8()
    ensures { PrintsUtf8 }
{}

/// The printed text of such a value holds no `<`.
#[tactic(auto, using(crate::proofs::NoMarkup::prints_no_markup))]
pub fn prints_no_markup()
    ensures { PrintsNoMarkup }
{}

/// Worked examples.
#[tactic(auto, using(crate::proofs::examples::WorkedExamples::worked_examples))]
pub fn worked_examples()
    ensures { WorkedExamples }
{}
