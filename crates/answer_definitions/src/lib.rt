//! What is answered for a theorem, as plain data: blocks, when one is right, the script that a run chooses, and what a settled run and the
//! still run answer. Definitions only; their laws are in `chosen_scripts` and `right_answers`.
#![tactic(auto)]
