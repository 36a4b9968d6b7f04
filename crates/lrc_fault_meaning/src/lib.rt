//! The faults of a grammar as it is written, in the order in which the first is answered: a
//! definition, in `specs/`, and worked examples of it as laws.
#![tactic(auto)]

ghost use Rattle.std.specs.Prelude.{◌≡◌, [], Some, None, codes};
ghost use Rattle.lrc_fault_meaning.specs.Faults.{first_fault, fault, fault_of, twice, unknown, missing_equation, double_equation, not_normal, wrong_kind, start_inherits};
ghost use Rattle.lrc_fault_meaning.specs.Examples.{sums_with, val_is, val_is_twice, val_is_true, val_is_of_nothing, local_called_as_a_child, inheriting_from};

/// The sum grammar has no fault; without the equation of a number's value it is missing there; an
/// equation that reads an unknown name, or the attribute that it defines, is at fault for it; and so
/// are a second equation, a value of another kind, an attribute of a symbol that is not there, and a
/// local that is called as a child.
pub fn sums_and_their_faults()
    ensures none { first_fault (sums_with (val_is (codes "n"))) ≡ None }
    ensures missing { first_fault (sums_with []) ≡ Some (fault missing_equation (codes "Num") (codes "val")) }
    ensures unknown { first_fault (sums_with (val_is (codes "foo"))) ≡ Some (fault unknown (codes "Num") (codes "foo")) }
    ensures own { first_fault (sums_with (val_is (codes "val"))) ≡ Some (fault not_normal (codes "Num") (codes "val")) }
    ensures double { first_fault (sums_with (val_is_twice (codes "n"))) ≡ Some (fault double_equation (codes "Num") (codes "val")) }
    ensures kind { first_fault (sums_with val_is_true) ≡ Some (fault wrong_kind (codes "Num") (codes "val")) }
    ensures symbol { first_fault (sums_with val_is_of_nothing) ≡ Some (fault unknown (codes "Num") (codes "x")) }
    ensures local { first_fault (sums_with local_called_as_a_child) ≡ Some (fault twice (codes "Num") (codes "n")) }
{}

/// Where a child inherits and no equation says what, the equation is missing; before that, a start
/// sort that inherits is at fault.
pub fn inherited_attributes_and_their_faults()
    ensures missing { first_fault (inheriting_from (codes "Prog")) ≡ Some (fault_of missing_equation (codes "Top") (codes "e") (codes "i")) }
    ensures start { first_fault (inheriting_from (codes "Exp")) ≡ Some (fault start_inherits (codes "start") (codes "i")) }
{}
