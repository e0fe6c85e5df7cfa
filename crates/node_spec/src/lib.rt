//! What Node's resolver answers for a specifier in a file of a tree, the record of a package.json, and what a target
//! in it comes to: definitions and their laws.
#![tactic(auto)]

ghost use Rattle.node_spec.specs.Laws.{AnswersDetermine, ConditionsAreASet, DecidingCallIsLast};
ghost use Rattle.node_spec.specs.Laws.{ExportsAskNothing, KeysAreInOrder, OneAnswer, OneChoice, OneOutcome};
ghost use Rattle.node_spec.specs.Laws.{OneRecord, OneUnder, PatternMatchIsSlice, PatternMatchStands};
ghost use Rattle.node_spec.specs.Laws.{PlacesBeginWithDotSlash, RecordNamesAreDistinct, SomeAnswer};
ghost use Rattle.node_spec.specs.Laws.{SomeChoice, SomeOutcome, SomeOutcomeInTurn, SomeRecord};
ghost use Rattle.node_spec.specs.WorkedExamples.{WorkedExamples};
ghost use Rattle.node_spec.specs.NodeExamples.{NodeExamples};
ghost use Rattle.node_spec.specs.Laws.{OneNode, SomeNode, GivesFile, SameNode, SameFormat, RelativeNode};
ghost use Rattle.node_spec.specs.Laws.{OneNearest, FindsPackageScope, FindsPackageFolder, FindsRecord};
ghost use Rattle.node_spec.specs.Laws.{OneRecordAt, RecordIsRead, FindsTarget, ExportsLookAtNothing};
ghost use Rattle.node_spec.specs.Laws.{FindsKey, NodeConditionsAreASet, AnsweredIsBare};
ghost use Rattle.node_spec.specs.PatternExamples.{PatternExamples};
ghost use Rattle.node_spec.specs.Laws.{FollowsTarget, TargetAnswered, NodeSpares, FormatIgnoresFolders};
ghost use Rattle.node_spec.specs.Laws.{FindsRelative};
ghost use Rattle.node_spec.specs.RecordExamples.{RecordExamples};
ghost use Rattle.node_spec.specs.TargetExamples.{TargetExamples};

use shared_types::Text;

/// Why a specifier is refused.
#[derive(Clone, Copy, Debug, PartialEq, Eq)]
pub enum Cause {
    /// The name of a module that Node brings itself.
    Builtin,
    /// A URL.
    ExternalUrl,
    /// A specifier that isn't well formed, or whose URL names a host or has an escaped separator.
    InvalidSpecifier,
    /// A package.json that isn't well formed.
    InvalidConfig,
    /// A target that isn't well formed, or that leaves its package.
    InvalidTarget,
    /// A subpath that the package doesn't export.
    NotExported,
    /// A specifier that begins with `#` and that the package doesn't define.
    ImportNotDefined,
    /// Nothing stands there.
    NotFound,
    /// A folder stands there.
    DirectoryImport,
}

/// What the `type` of a package.json says of the package's `.js` files.
#[derive(Clone, Copy, Debug, PartialEq, Eq)]
pub enum PackageKind {
    /// `module`: they are ECMAScript modules.
    Module,
    /// `commonjs`: they are CommonJS modules.
    CommonJs,
    /// No type, or another one, which says nothing.
    Unstated,
}

/// Why a file is no module.
#[derive(Clone, Copy, Debug, PartialEq, Eq)]
pub enum Reason {
    /// Its name, its package or its text says that it is a CommonJS module.
    CommonJs,
    /// Its name says that it is JSON.
    Json,
    /// Its name says that it is an addon.
    Addon,
    /// Its name has another ending, or none.
    Other,
    /// The package.json of its package scope isn't well formed.
    Config,
    /// What stands at the place in its text, in bytes, can't be read as a module's.
    Unreadable { at: usize },
}

/// What the resolution of a bare text that a target names comes to.
#[derive(Clone, Copy, Debug, PartialEq, Eq)]
pub enum BareAnswer {
    /// A URL; what stands there isn't judged.
    Found,
    /// None: a target that it comes to isn't well formed, or leaves its package.
    InvalidTarget,
    /// None, for any other reason.
    Stop,
}

/// What a target comes to.
#[derive(Debug, Drop)]
pub enum Outcome {
    /// Nothing: no key of an object is tried, or those that are come to nothing.
    Undefined,
    /// Null, by which a package keeps a subpath to itself; also an empty list.
    Null,
    /// A text that begins with `./`, to be joined to the URL of the package's folder. What stands there isn't judged.
    Place(Text),
    /// The URL of the bare text that was asked for last.
    Bare,
    /// The bare text that was asked for last is refused, by `Stop`.
    Stopped,
    /// A target, or one that a bare text came to, isn't well formed or leaves its package.
    InvalidTarget,
    /// What stands for `*` has a segment that isn't allowed.
    InvalidSpecifier,
    /// An object has a key that is an array index.
    InvalidConfig,
}

/// A specifier in a file of a tree has one answer at most.
#[tactic(auto, using(crate::proofs::OneAnswer::one_answer))]
pub fn one_answer()
    ensures { OneAnswer }
{}

/// A relative specifier has an answer in each tree.
#[tactic(auto, using(crate::proofs::RelativeLemmas::some_answer))]
pub fn some_answer()
    ensures { SomeAnswer }
{}

/// In each tree the asking of a relative specifier comes to Node's answer.
#[tactic(auto, using(crate::proofs::RelativeLemmas::finds_relative))]
pub fn finds_relative()
    ensures { FindsRelative }
{}

/// The bytes of a package.json have one record, or one reason for having none.
#[tactic(auto, using(crate::proofs::OneRecord::one_record))]
pub fn one_record()
    ensures { OneRecord }
{}

/// The bytes of a package.json have a record, or a reason for having none.
#[tactic(auto, using(crate::proofs::OneRecord::some_record))]
pub fn some_record()
    ensures { SomeRecord }
{}

/// No object in a record holds a name twice, at any level.
#[tactic(auto, using(crate::proofs::OneRecord::record_names_are_distinct))]
pub fn record_names_are_distinct()
    ensures { RecordNamesAreDistinct }
{}

/// A target asks for one list of texts and comes to one outcome at most, if the same texts in turn get the same
/// answers.
pub fn one_outcome()
    ensures { OneOutcome }
{}

/// The answers in their order determine the texts that a target asks for, and its outcome.
pub fn answers_determine()
    ensures { AnswersDetermine }
{}

/// Under a map from texts to answers a target comes to one outcome at most.
pub fn one_under()
    ensures { OneUnder }
{}

/// No text is asked for behind one that was found or that stops the choice: the call that decides is the last one.
#[tactic(auto, using(crate::proofs::DecidingCall::deciding_call_is_last))]
pub fn deciding_call_is_last()
    ensures { DecidingCallIsLast }
{}

/// A target in `exports` asks for no bare text, and so comes to neither of the outcomes that such a text has.
#[tactic(auto, using(crate::proofs::DecidingCall::exports_ask_nothing))]
pub fn exports_ask_nothing()
    ensures { ExportsAskNothing }
{}

/// A target comes to no place but one that begins with `./`.
#[tactic(auto, using(crate::proofs::PlacesBeginWithDotSlash::places_begin_with_dot_slash))]
pub fn places_begin_with_dot_slash()
    ensures { PlacesBeginWithDotSlash }
{}

/// Where every bare text has an answer, each target comes to an outcome.
pub fn some_outcome()
    ensures { SomeOutcome }
{}

/// Each target comes to an outcome also where one text is answered differently at two places.
#[tactic(auto, using(crate::proofs::AnswersInTurn::some_outcome_in_turn))]
pub fn some_outcome_in_turn()
    ensures { SomeOutcomeInTurn }
{}

/// Conditions are a set: neither their order nor how often one is named changes an outcome or the texts asked for.
#[tactic(auto, using(crate::proofs::ConditionSets::conditions_are_a_set))]
pub fn conditions_are_a_set()
    ensures { ConditionsAreASet }
{}

/// Worked examples of targets.
#[tactic(auto, using(crate::proofs::examples::TargetExamples::target_examples))]
pub fn target_examples()
    ensures { TargetExamples }
{}

/// Worked examples of records.
#[tactic(auto, using(crate::proofs::examples::RecordExamples::record_examples))]
pub fn record_examples()
    ensures { RecordExamples }
{}

/// Worked examples.
#[tactic(auto, using(crate::proofs::examples::WorkedExamples::worked_examples))]
pub fn worked_examples()
    ensures { WorkedExamples }
{}

/// A pattern key fits a text exactly where a part that isn't empty stands between its base and its trailer.
pub fn pattern_match_stands()
    ensures { PatternMatchStands }
{}

/// What stands for the `*` of a pattern key is the slice of the text between the key's base and trailer.
#[tactic(auto, using(crate::proofs::PatternSlices::pattern_match_is_slice))]
pub fn pattern_match_is_slice()
    ensures { PatternMatchIsSlice }
{}

/// The order among the keys that match one text is total.
#[tactic(auto, using(crate::proofs::PatternOrder::keys_are_in_order))]
pub fn keys_are_in_order()
    ensures { KeysAreInOrder }
{}

/// Among a set of keys one is chosen at most, and it matches in one way.
pub fn one_choice()
    ensures { OneChoice }
{}

/// Among a set of keys there is a choice, unless none of them matches.
pub fn some_choice()
    ensures { SomeChoice }
{}

/// Worked examples of keys that are chosen.
#[tactic(auto, using(crate::proofs::examples::PatternExamples::pattern_examples))]
pub fn pattern_examples()
    ensures { PatternExamples }
{}

/// Worked examples of specifiers.
pub fn node_examples()
    ensures { NodeExamples }
{}

/// A specifier in a file of a tree has one answer at most.
#[tactic(auto, using(crate::proofs::NodeLemmas::one_node))]
pub fn one_node()
    ensures { OneNode }
{}

/// A specifier in a file of a tree has an answer.
#[tactic(auto, using(crate::proofs::NodeLemmas::some_node))]
pub fn some_node()
    ensures { SomeNode }
{}

/// Where the answer is a module, a file stands at its path, and the last look was at it.
#[tactic(auto, using(crate::proofs::NodeLemmas::gives_file))]
pub fn gives_file()
    ensures { GivesFile }
{}

/// What stands at the paths of its footprint decides the answer for a specifier.
pub fn same_node()
    ensures { SameNode }
{}

/// What stands at the paths of its footprint decides what is known of a file's format before its text is read.
pub fn same_format()
    ensures { SameFormat }
{}

/// A relative specifier is answered as the URL to which it is joined.
pub fn relative_node()
    ensures { RelativeNode }
{}

/// One folder at most is the nearest that is looked for.
#[tactic(auto, using(crate::proofs::NearestFolders::one_nearest))]
pub fn one_nearest()
    ensures { OneNearest }
{}

/// In each tree the asking for a package scope comes to it.
#[tactic(auto, using(crate::proofs::NearestFolders::finds_package_scope))]
pub fn finds_package_scope()
    ensures { FindsPackageScope }
{}

/// In each tree the asking for the folder of a package comes to it.
#[tactic(auto, using(crate::proofs::NearestFolders::finds_package_folder))]
pub fn finds_package_folder()
    ensures { FindsPackageFolder }
{}

/// In each tree the asking for the record of a folder comes to it.
#[tactic(auto, using(crate::proofs::RecordLooks::finds_record))]
pub fn finds_record()
    ensures { FindsRecord }
{}

/// A folder has one record, or one reason for having none.
#[tactic(auto, using(crate::proofs::RecordLooks::one_record_at))]
pub fn one_record_at()
    ensures { OneRecordAt }
{}

/// The record of a package.json's bytes is what the function gives.
#[tactic(auto, using(crate::proofs::RecordLooks::record_is_read))]
pub fn record_is_read()
    ensures { RecordIsRead }
{}

/// A target comes to what it comes to by its calls, where these are answered as its bare texts are.
pub fn finds_target<X>()
    ensures { FindsTarget X }
{}

/// A target in `exports` needs no look.
#[tactic(auto, using(crate::proofs::TargetOutcomes::exports_look_at_nothing))]
pub fn exports_look_at_nothing()
    ensures { ExportsLookAtNothing }
{}

/// The key that is taken is the choice among the keys, and where none is taken, none matches.
pub fn finds_key()
    ensures { FindsKey }
{}

/// What a target comes to by calls that are answered one after another, in a state that they change, is what it comes
/// to as an asking.
pub fn follows_target<T, S, X>()
    ensures { FollowsTarget T S X }
{}

/// An object that nothing had stopped, if it was asked for a target's bare texts and lost no answer, keeps what the
/// target comes to as an asking.
pub fn target_answered<T, S, X>()
    ensures { TargetAnswered T S X }
{}

/// Conditions are a set in the whole of Node's resolution.
pub fn node_conditions_are_a_set()
    ensures { NodeConditionsAreASet }
{}

/// A specifier that isn't relative and has an answer is no URL, and names no folder.
pub fn answered_is_bare()
    ensures { AnsweredIsBare }
{}

/// A resolution that comes to a module comes to it without the folders that have no file among those looked at.
pub fn node_spares()
    ensures { NodeSpares }
{}

/// The format of a file tells no folder from nothing.
pub fn format_ignores_folders()
    ensures { FormatIgnoresFolders }
{}
