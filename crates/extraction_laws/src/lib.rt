//! How the chosen script of a tree is read from the tree, step by step along the one list. The law is the contract of a function with an empty body; there is no code.
#![tactic(auto)]

ghost use Rattle.extraction_laws.specs.Laws.{ChosenScriptsCanBeFollowed};

/// Where the root is proved, the chosen script can be followed from the opening list on, by the numbers of nodes.
pub fn chosen_scripts_can_be_followed()
    ensures { ChosenScriptsCanBeFollowed }
{}
