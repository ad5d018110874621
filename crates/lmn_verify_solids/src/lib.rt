//! What verified code does, told by solids: where its head succeeds, what is chosen, and what its commit leaves.
#![tactic(auto)]

ghost use Rattle.lmn_verify_solids.specs.Examples.{GraphExamples, IdleCodeIsFlat, IdleCodeTies, TurnExamples};
ghost use Rattle.lmn_verify_solids.specs.Laws.{CommitsAreFirings, FlatRulesFire, GraphsHaveHeaps, HeadsAreAlike, HeapsAreGraphs, ItemsAreOne, OnePreorder, TakenByMembers};

/// The graph of a valid heap is one of each solid that it has. Its membranes in preorder are those of the heap's tree, and the heap
/// has as many items as the solid, and its root.
pub fn heaps_are_graphs()
    ensures graphs { HeapsAreGraphs }
    ensures preorder { OnePreorder }
    ensures items { ItemsAreOne }
{}

/// Each graph of a solid is that of a heap between commits.
pub fn graphs_have_heaps()
    ensures { GraphsHaveHeaps }
{}

/// Head code succeeds on a heap where it does on its graph, and first with the same registers.
pub fn heads_are_alike()
    ensures { HeadsAreAlike }
{}

/// Where a flat rule fires from heap to heap, its code is committed from graph to graph.
pub fn flat_rules_fire()
    ensures { FlatRulesFire }
{}

/// Where code that ties each end of a link of its flat rule is committed from graph to graph, the rule fires from heap to heap.
pub fn commits_are_firings()
    ensures { CommitsAreFirings }
{}

/// A commit that takes the atoms of one list takes those of any other with the same members.
pub fn taken_by_members()
    ensures { TakenByMembers }
{}

/// Graphs of small solids, heads on them, and what small codes leave of them.
pub fn graph_examples()
    ensures { GraphExamples }
{}

/// What codes choose on a solid, and what they leave.
pub fn turn_examples()
    ensures { TurnExamples }
{}

/// Code of the flat rule without items, and code that isn't.
pub fn idle_code_is_flat()
    ensures { IdleCodeIsFlat }
{}

/// Code that ties each end of the flat rule without items, and not those of a link that is made.
pub fn idle_code_ties()
    ensures { IdleCodeTies }
{}
