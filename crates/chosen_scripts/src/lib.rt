//! The script that the marks of a tree choose, and that its replay closes. The law is the contract of a function with an empty body; there is no code.
#![tactic(auto)]

ghost use Rattle.chosen_scripts.specs.Laws.{ChosenScriptsReplay};

/// The chosen script of a proved theorem closes it.
pub fn chosen_scripts_replay()
    ensures { ChosenScriptsReplay }
{}
