//! Steps of the search keep what is well formed, and what they assign is typed. Each law is the contract of a function with an empty body; there is no code.
#![tactic(auto)]

ghost use Rattle.typed_steps.specs.Laws.{ApplicationsKeepTypes, NormalFormsKeepTypes, AlternativesKeepTypes};

/// The list after an application is well formed, and what is assigned has its goal's type.
pub fn applications_keep_types()
    ensures { ApplicationsKeepTypes }
{}

/// So it is with a normal form.
pub fn normal_forms_keep_types()
    ensures { NormalFormsKeepTypes }
{}

/// And with each alternative.
pub fn alternatives_keep_types()
    ensures { AlternativesKeepTypes }
{}
