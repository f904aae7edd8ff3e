//! Runs of a search over any problem that is known by the branches of what a node is seen as: the shape of the tree, addresses, marks, the
//! best node, events and the state that they lead to, as plain data. Only the standard library stands below. The laws are the contracts of
//! functions with an empty body, and there is no other code here.
#![tactic(auto)]

ghost use Rattle.tree_runs.specs.Laws.{ShapesGrow, MarksAreLocal, MarksExclude, MarksGrow, UndecidedRootsHaveRelevantNodes, BestNodesAreTested, RunsAreSound, StillRunsExist, PrioritiesAreBounded, HeldNodesAreClaimed, StillRunsAreSettledRuns, MarksAreThoseOfAddresses, NothingIsCommittedTwice, StillRunsAreUnique, BestNodesAreUnique, NodesAreRanked, AddressesDiffer, StatesGoOn, RunsGoOn, RunsAreBuiltFromLegalEvents};

/// One more event at the end of a journal changes the state as the event says.
pub fn states_go_on<S>()
    ensures { StatesGoOn S }
{}

/// A run goes on by one more event exactly where that is legal in its state.
pub fn runs_go_on<S>()
    ensures { RunsGoOn S }
{}

/// What holds of no events, and goes on by legal events, holds of all runs.
pub fn runs_are_built_from_legal_events<S>()
    ensures { RunsAreBuiltFromLegalEvents S }
{}

/// The root's shape is one, and so is each shape of which a node that stands and isn't grown is grown.
pub fn shapes_grow()
    ensures { ShapesGrow }
{}

/// The marks of a shape satisfy the local equation at every node, and whatever satisfies it there is the marks.
pub fn marks_are_local()
    ensures { MarksAreLocal }
{}

/// No node is both proved and stuck.
pub fn marks_exclude()
    ensures { MarksExclude }
{}

/// Where a node that stands and isn't grown is grown, marks stay and relevance isn't won back.
pub fn marks_grow()
    ensures { MarksGrow }
{}

/// Where the root is undecided, some relevant node stands that isn't grown.
pub fn undecided_roots_have_relevant_nodes()
    ensures { UndecidedRootsHaveRelevantNodes }
{}

/// The test of the best node is true of just the best node.
pub fn best_nodes_are_tested<S>()
    ensures { BestNodesAreTested S }
{}

/// The state of each run is sound.
pub fn runs_are_sound<S>()
    ensures { RunsAreSound S }
{}

/// Different nodes have different addresses.
pub fn addresses_differ()
    ensures { AddressesDiffer }
{}

/// Of two nodes with different addresses just one is better, and what is better than a better one is better.
pub fn nodes_are_ranked<S>()
    ensures { NodesAreRanked S }
{}

/// The best node is one.
pub fn best_nodes_are_unique<S>()
    ensures { BestNodesAreUnique S }
{}

/// The still run of a root and a budget is one.
pub fn still_runs_are_unique<S>()
    ensures { StillRunsAreUnique S }
{}

/// No node is committed twice in a run.
pub fn nothing_is_committed_twice<S>()
    ensures { NothingIsCommittedTwice S }
{}

/// Each root and budget has a still run.
pub fn still_runs_exist<S>()
    ensures { StillRunsExist S }
{}

/// In a run the marks of each node are those of its address in the set of the committed ones.
pub fn marks_are_those_of_addresses<S>()
    ensures { MarksAreThoseOfAddresses S }
{}

/// The still run is a run, and ends settled.
pub fn still_runs_are_settled_runs<S>()
    ensures { StillRunsAreSettledRuns S }
{}

/// What a seat holds it has claimed.
pub fn held_nodes_are_claimed<S>()
    ensures { HeldNodesAreClaimed S }
{}

/// Where no percentage is above 100, no priority is above the root's.
pub fn priorities_are_bounded<S>()
    ensures { PrioritiesAreBounded S }
{}
