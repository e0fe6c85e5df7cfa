//! The shortest chain of requests from the page to a module, and of the shortest the least: definitions and their laws,
//! over any graph of numbered requests.
#![tactic(auto)]

ghost use Rattle.chain_spec.specs.Laws.{OneShortest, SomeShortest, ChainsReach, ChainWhereReached};
ghost use Rattle.chain_spec.specs.Laws.{OneGoesBefore, PageItself, TriedIsShortest, NoneAmong};
ghost use Rattle.chain_spec.specs.Laws.{ChainsOfModules, ShortestOfModules};
ghost use Rattle.chain_spec.specs.WorkedExamples.{WorkedExamples};

/// There is one shortest chain at most.
pub fn one_shortest<M>()
    ensures { OneShortest M }
{}

/// There is one where there is any chain.
pub fn some_shortest<M>()
    ensures { SomeShortest M }
{}

/// Requests lead from the page to exactly those that are reached.
pub fn chains_reach<M>()
    ensures { ChainsReach M }
{}

/// There is a chain exactly where one that is wanted is reached.
pub fn chain_where_reached<M>()
    ensures { ChainWhereReached M }
{}

/// Of two lists of numbers that differ one goes before the other.
pub fn one_goes_before()
    ensures { OneGoesBefore }
{}

/// Where the page itself is wanted, the shortest chain has no request.
pub fn page_itself<M>()
    ensures { PageItself M }
{}

/// Where the page is left out, chains are those of at least one request.
pub fn chains_of_modules<M>()
    ensures { ChainsOfModules M }
{}

/// Where the page isn't wanted, leaving it out changes nothing.
pub fn shortest_of_modules<M>()
    ensures { ShortestOfModules M }
{}

/// What is found by trying all chains of at most so many requests is the shortest.
pub fn tried_is_shortest<M>()
    ensures { TriedIsShortest M }
{}

/// Where all that is asked for stays among modules that aren't wanted, there is no chain.
pub fn none_among<M>()
    ensures { NoneAmong M }
{}

/// Worked examples.
pub fn worked_examples()
    ensures { WorkedExamples }
{}
