//! URLs as texts: parsing, URL-like specifiers, web names, served paths and file URLs. Definitions,
//! and their laws as the contracts of functions that do nothing.
#![tactic(auto)]

ghost use Rattle.url_spec.specs.Laws.{SameAgainst, FilesEndInNoSlash, FileUrls, AsciiUrls, KeptWhole, KeptUrls, NoUrls};
ghost use Rattle.url_spec.specs.Laws.{OwnUrls, NormalTexts, BasesStay, OneServed, OnePlace, PathsAreTested};
ghost use Rattle.url_spec.specs.Laws.{NamedInFolder, IndexUrls, FileJoins};
ghost use Rattle.url_spec.specs.WorkedExamples.{WorkedExamples};

/// What parsing gives, with or without a base, is the text of a URL, and so is a web name.
#[tactic(auto, using(crate::proofs::KeptUrls::kept_urls))]
pub fn kept_urls()
    ensures { KeptUrls }
{}

/// The text of a URL is ASCII.
#[tactic(auto, using(crate::proofs::OwnTexts::ascii_urls))]
pub fn ascii_urls()
    ensures { AsciiUrls }
{}

/// Each valid URL that the parser gives counts, with or without a base: its text is ASCII and
/// parses to it.
#[tactic(auto, using(crate::proofs::OwnTexts::kept_whole))]
pub fn kept_whole()
    ensures { KeptWhole }
{}

/// A text that is empty, or that begins with `/`, `.`, a digit or any other visible byte that is no
/// letter, is no URL without a base.
#[tactic(auto, using(crate::proofs::NoUrls::no_urls))]
pub fn no_urls()
    ensures { NoUrls }
{}

/// As a specifier the text of a URL is that URL, against every base; and the URL of a specifier is
/// the text of a URL.
#[tactic(auto, using(crate::proofs::OwnUrls::own_urls))]
pub fn own_urls()
    ensures { OwnUrls }
{}

/// As a specifier the text of a URL stands for itself, and so does a text that is neither relative nor a URL.
pub fn normal_texts()
    ensures { NormalTexts }
{}

/// The text of a URL, parsed against any URL, is that URL.
pub fn urls_against()
    ensures { SameAgainst }
{}

/// The base that a text gives is its own base.
#[tactic(auto, using(crate::proofs::Bases::bases_stay))]
pub fn bases_stay()
    ensures { BasesStay }
{}

/// The web name of a path without a suffix ends in no `/` where the path is served at it and isn't
/// the root.
pub fn files_end_in_no_slash()
    ensures { FilesEndInNoSlash }
{}

/// At most one path is served at a URL.
pub fn one_served()
    ensures { OneServed }
{}

/// A file URL names one place.
pub fn one_place()
    ensures { OnePlace }
{}

/// The file URL of a path is a URL without a host, and its path is what follows `file://`.
pub fn file_urls()
    ensures { FileUrls }
{}

/// A URL whose text begins with that of a folder spells the folder or a path below it.
pub fn named_in_folder()
    ensures { NamedInFolder }
{}

/// The URLs of the files that Node tries in a folder begin with the folder's.
pub fn index_urls()
    ensures { IndexUrls }
{}

/// A relative text that leads to a path is joined to a file URL without a parse.
pub fn file_joins()
    ensures { FileJoins }
{}

/// The tests of paths, and of what is served, say exactly what they are named for.
pub fn paths_are_tested()
    ensures { PathsAreTested }
{}

/// Worked examples.
#[tactic(auto, using(crate::proofs::examples::WorkedExamples::worked_examples))]
pub fn worked_examples()
    ensures { WorkedExamples }
{}
