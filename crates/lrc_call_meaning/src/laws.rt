ghost use Rattle.std.specs.Prelude.{◌≡◌, ◌≤◌, ℕ, List, Option, Some, IfSome};
ghost use Rattle.std.specs.List.{AllByRecursion};
ghost use Rattle.lrc_meaning.specs.Tree.{Tree};
ghost use Rattle.lrc_meaning.specs.Expression.{Expression, value_of};
ghost use Rattle.lrc_visit_meaning.specs.Values.{Data, Call, Result};
ghost use Rattle.lrc_call_meaning.specs.Spelled.{IsSpelled, AreLiteralsSpelled, AreSpelledData, IsSpelledCall, IsSpelledResult};
ghost use Rattle.lrc_call_meaning.specs.Forms.{binding_cell, call_form, result_form};
ghost use Rattle.lrc_call_meaning.specs.Decoding.{read_call, read_result};

/// A call whose names are spelled, of a visit up to 223, is read off its cell, and so is a result of
/// whatever height. This does nothing; its contract is the law.
pub fn calls_are_read_back()
    ensures calls { (c : Call) → IsSpelledCall c → c.visit ≤ 223 → read_call (call_form c) ≡ Some c }
    ensures results { (r : Result) → IsSpelledResult r → read_result (result_form r) ≡ Some r }
{}

/// The forms of whole calls, of whole results and of bindings, in which values and bindings nest, are
/// injective where names are spelled: equal cells stand for equal calls, with their trees, visits,
/// inherited values and bindings, for equal results, and for equal bindings. This does nothing; its
/// contract is the law.
pub fn forms_of_calls_are_injective()
    ensures calls { (one other : Call) → IsSpelledCall one → IsSpelledCall other → call_form one ≡ call_form other → one ≡ other }
    ensures results { (one other : Result) → IsSpelledResult one → IsSpelledResult other → result_form one ≡ result_form other → one ≡ other }
    ensures bindings { (one other : Data) → AreSpelledData one → AreSpelledData other → binding_cell one ≡ binding_cell other → one ≡ other }
{}

/// The value of an expression whose literals are spelled, over spelled values and leaves, is spelled.
/// This does nothing; its contract is the law.
pub fn values_are_spelled()
    ensures { (values : List Tree) (leaves : ℕ → Option Tree) (e : Expression) → AllByRecursion IsSpelled values → ((i : ℕ) → IfSome (leaves i) IsSpelled) → AreLiteralsSpelled e → IfSome (value_of values leaves e) IsSpelled }
{}
