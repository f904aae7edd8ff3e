//! Laws, each the contract of a function that does nothing.

ghost use Rattle.elab_terms.specs.Laws.{WhatIsReadIsFormed, WhatIsReadIsOne, WhatIsReadIsNotRefused, AFaultIsOne};

/// A law: the types and the kinds that are read are well formed.
pub fn what_is_read_is_formed()
    ensures { WhatIsReadIsFormed }
{}

/// A law: one type at most is read from a tree, and one kind.
pub fn what_is_read_is_one()
    ensures { WhatIsReadIsOne }
{}

/// A law: a tree that is read as a type is refused for no fault, and so it is of a kind.
pub fn what_is_read_is_not_refused()
    ensures { WhatIsReadIsNotRefused }
{}

/// A law: a tree is refused for one fault at most.
pub fn a_fault_is_one()
    ensures { AFaultIsOne }
{}
