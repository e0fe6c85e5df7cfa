//! The file of a project: which config its bytes have, or why they have none, and how a config is written.
//!
//! Definitions and laws alone: each function here is empty, and its contract is a law.
#![tactic(auto)]

ghost use Rattle.project_spec.specs.Laws.{FourMembers, OneProject, ProjectsReadBack, ReadProjects, SomeProject};

/// The bytes of a file have at most one config, or one fault.
#[tactic(auto, using(crate::proofs::OneProject::one_project))]
pub fn one_project()
    ensures { OneProject }
{}

/// The bytes of a file have a config or a fault.
#[tactic(auto, using(crate::proofs::SomeProject::some_project))]
pub fn some_project()
    ensures { SomeProject }
{}

/// A config that is read can stand in a file.
#[tactic(auto, using(crate::proofs::ReadBack::read_projects))]
pub fn read_projects()
    ensures { ReadProjects }
{}

/// What is written for a config that can stand in a file is read as that config, where its texts are UTF-8.
#[tactic(auto, using(crate::proofs::ReadBack::projects_read_back))]
pub fn projects_read_back()
    ensures { ProjectsReadBack }
{}

/// The members of a project's file are these four, in any order.
pub fn four_members()
    ensures { FourMembers }
{}
