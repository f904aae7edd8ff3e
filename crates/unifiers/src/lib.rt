//! The laws of unifiers: the answer of unification solves the equations, whatever solves them is an instance of it, and after a clash or an occurrence nothing
//! solves them. Each is the contract of a function with an empty body; there is no code.
#![tactic(auto)]

ghost use Rattle.unifiers.specs.Laws.{SolutionsAreInstances, AnswersSolve, InstancesFollow, RefusedEquationsHaveNoSolution};

/// An assignment solves equations exactly where it is an instance of their answer.
pub fn solutions_are_instances()
    ensures { SolutionsAreInstances }
{}

/// The answer itself solves the equations.
pub fn answers_solve()
    ensures { AnswersSolve }
{}

/// An instance of an answer makes of a term what it makes of what the answer makes of it.
pub fn instances_follow()
    ensures { InstancesFollow }
{}

/// After a clash or an occurrence nothing solves the equations.
pub fn refused_equations_have_no_solution()
    ensures { RefusedEquationsHaveNoSolution }
{}
