//! The search for the shortest chain, over any graph of numbered requests.
#![tactic(auto)]

ghost use Rattle.chain_search.specs.Laws.{FindsShortest, OneFound};
ghost use Rattle.chain_search.specs.PlainSearch.{SearchExamples};

/// A search that goes on from each asker in the order in which they are reached finds the shortest chain.
pub fn finds_shortest<M>()
    ensures { FindsShortest M }
{}

/// A search comes to one thing at most.
pub fn one_found<M>()
    ensures { OneFound M }
{}

/// Worked examples.
pub fn search_examples()
    ensures { SearchExamples }
{}
