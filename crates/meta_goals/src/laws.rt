//! Laws of bindings, as the contracts of functions with empty bodies.

ghost use Rattle.meta_goals.specs.Laws.{BoundGoalsHaveTheirShapes, BoundBodiesAreClosed, AssignmentsGoUnderVariables};

/// A goal that has a binding has the binding's shapes.
pub fn bound_goals_have_their_shapes()
    ensures { BoundGoalsHaveTheirShapes }
{}

/// Bodies that speak of no variable but their own make up closed terms.
pub fn bound_bodies_are_closed()
    ensures { BoundBodiesAreClosed }
{}

/// What assigns closed terms goes from one scope to another under further variables, too.
pub fn assignments_go_under_variables()
    ensures { AssignmentsGoUnderVariables }
{}
