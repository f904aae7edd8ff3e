//! Right answers for theorems: what blocks say, and what settled runs answer. Each law is the contract of a function with an empty body; there is no code.
#![tactic(auto)]

ghost use Rattle.right_answers.specs.Laws.{ChosenScriptsOfRunsReplay, SettledAnswersAreRight, StillAnswersAreUnique, RightAnswersDecideDerivability, SmallTheoremsAreNotSpent};

/// Where the root is proved, the script that a run chooses replays to a closed term.
pub fn chosen_scripts_of_runs_replay()
    ensures { ChosenScriptsOfRunsReplay }
{}

/// What a settled run answers is right.
pub fn settled_answers_are_right()
    ensures { SettledAnswersAreRight }
{}

/// Each theorem has exactly one answer of the still run, and that is right.
pub fn still_answers_are_unique()
    ensures { StillAnswersAreUnique }
{}

/// A theorem that is answered to be proved is derivable, and one that is answered to be stuck isn't.
pub fn right_answers_decide_derivability()
    ensures { RightAnswersDecideDerivability }
{}

/// The budget of a theorem whose unfolding has no more addresses is never spent.
pub fn small_theorems_are_not_spent()
    ensures { SmallTheoremsAreNotSpent }
{}
