//! Lists of goals after an application, their normal forms and their alternatives, as functions on plain data. There is no code, and the laws stand in crates above.
#![tactic(auto)]
