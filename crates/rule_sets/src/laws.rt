//! Laws of rule books and their orders. A call does nothing: its contract is the law.

ghost use Rattle.std.specs.Prelude.{◌≡◌, ◌<◌, ◌++◌, ℕ, List, length, Result};
ghost use Rattle.lf_definitions.specs.Signatures.{LfSignature, family_kinds};
ghost use Rattle.rule_sets.specs.Books.{Book, first_book};
ghost use Rattle.rule_sets.specs.Refusals.{AddsRule, AddsList, IsOver};
ghost use Rattle.rule_sets.specs.Orders.{IsOrder};
ghost use Rattle.rule_sets.specs.FittingRules.{RulesOfABookFit};
ghost use Rattle.rule_sets.specs.declared.rule.Rule.{Rule};
ghost use Rattle.rule_sets.specs.declared.rule.RuleFault.{RuleFault};
ghost use Rattle.rule_sets.specs.declared.rule.CtorFault.{CtorFault};

/// A signature that grows keeps the books that were added over it.
pub fn books_stay_over_longer_signatures()
    ensures { (sig more : LfSignature) (book : Book) → IsOver sig book → IsOver (sig ++ more) book }
{}

/// The book of the built-in rules is over each signature.
pub fn the_first_book_is_over_each_signature()
    ensures { (sig : LfSignature) → IsOver sig first_book }
{}

/// A book that takes a rule, or refuses it, stays over its signature.
pub fn added_rules_keep_books_over_signatures()
    ensures { (sig : LfSignature) (old new : Book) (rule : Rule) (answer : Result (Unit {0}) RuleFault)
        → IsOver sig old → AddsRule sig old rule answer new → IsOver sig new }
{}

/// A book that takes a list of constructors of a family of its signature, or refuses it, stays over the
/// signature.
pub fn added_lists_keep_books_over_signatures()
    ensures { (sig : LfSignature) (old new : Book) (family : ℕ) (constants : List ℕ) (answer : Result (Unit {0}) CtorFault)
        → family < length (family_kinds sig) → IsOver sig old → AddsList sig old family constants answer new → IsOver sig new }
{}

/// Each rule of a book after the built-in ones fits the signature, by its builder: the type of its constant
/// exists, or the list of its family, and so do the major argument and the premises that it speaks of.
pub fn rules_of_a_book_fit()
    ensures { RulesOfABookFit }
{}

/// The rules of some sets have one order.
pub fn orders_are_one()
    ensures { (book : Book) (sets : List (List ℕ)) (numbers others : List ℕ)
        → IsOrder book sets numbers → IsOrder book sets others → numbers ≡ others }
{}
