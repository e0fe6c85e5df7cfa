//! What the words of a command line and the project of a folder ask for: a command with a config, or why there is none.
//!
//! Definitions and laws alone: each function here is empty, and its contract is a law.
#![tactic(auto)]

ghost use Rattle.config_spec.specs.Laws.{OptionsAreJudged, WordsAreJudged, ProjectsAreRead, ConfigsAreJudged};
ghost use Rattle.config_spec.specs.Laws.{ConfigsAreProjects, FaultsAreOfWords};
ghost use Rattle.config_spec.specs.WorkedExamples.{WorkedExamples};

use shared_types::Text;
use tree_spec::LimitName;

/// What is asked for.
#[derive(Clone, Copy, Debug, PartialEq, Eq)]
pub enum Command {
    /// The map and the project, with these entries and options.
    Link,
    /// The map and the project, without these entries.
    Unlink,
    /// The map of the project.
    Refresh,
    /// The page, with the map in it.
    Inject,
    /// Which needs the map that is there doesn't serve.
    Check,
    /// The same, and which modules the statement grammar and the outline don't say the same of.
    CheckStrictly,
    /// The modules, each with the number of its requests.
    List,
    /// The shortest chain of requests that leads from the page to a file.
    Why,
    /// Copies of the files that the map needs, in a folder of their own.
    Vendor,
}

/// Why there is no project. A place is an offset in the file, in bytes.
#[derive(Clone, Copy, Debug, PartialEq, Eq)]
pub enum ProjectFault {
    /// No file stands there.
    Absent,
    /// The file has more bytes than a file may.
    TooLarge,
    /// It isn't the file of a project.
    NotProject { at: usize },
    /// It passes this limit as it is read.
    Above { which: LimitName },
}

/// Why there is no config, with what is shown of it.
#[derive(Debug, Drop)]
pub enum ConfigFault {
    /// A text that gives no base.
    BadBase { text: Text },
    /// A text that is no page's path, or no path at all.
    BadPath { text: Text },
    /// A text that gives no conditions.
    BadConditions { text: Text },
    /// There is no project.
    Project { fault: ProjectFault },
    /// Neither the words nor a project give a base.
    NoBase,
    /// An entry that isn't there to be taken out.
    NotLinked { entry: Text },
    /// More entries than a project may have.
    TooManyEntries,
}

/// Options set one thing or are refused in one way.
pub fn options_are_judged()
    ensures { OptionsAreJudged }
{}

/// Plain words ask for one command or are refused in one way.
pub fn words_are_judged()
    ensures { WordsAreJudged }
{}

/// The project's path holds one project, none or one fault.
pub fn projects_are_read()
    ensures { ProjectsAreRead }
{}

/// Words and a tree have one config or one fault.
pub fn configs_are_judged()
    ensures { ConfigsAreJudged }
{}

/// A config can be written as a project.
pub fn configs_are_projects()
    ensures { ConfigsAreProjects }
{}

/// Whatever the tree holds, words are refused for these reasons alone.
pub fn faults_are_of_words()
    ensures { FaultsAreOfWords }
{}

/// Worked examples.
pub fn worked_examples()
    ensures { WorkedExamples }
{}
