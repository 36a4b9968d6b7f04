//! What the results of the other crates are compared with: definitions, in `specs/`, of trees,
//! expressions, grammars, attribution, editing rules, printed texts and the numbering of names.
//!
//! The functions here do nothing; each carries a law as its contract: worked examples by which a
//! reader can try the definitions, and that the replies of a session tell the rest of it.
#![tactic(auto)]

ghost use Rattle.std.specs.Prelude.{◌≡◌, ℕ, pos, [], ◌∷◌, IsTrue, true};
ghost use Rattle.lrc_meaning.specs.Tree.{Tree, int, fits};
ghost use Rattle.lrc_meaning.specs.Grammar.{is_well_formed};
ghost use Rattle.lrc_meaning.specs.Attribution.{Attributes, IsAttribution};
ghost use Rattle.lrc_meaning.specs.Editing.{RepliesTellTheRest};
ghost use Rattle.lrc_meaning.specs.Naming.{TellsCalls};
ghost use Rattle.lrc_meaning.specs.Signature.{TellsRoles};
ghost use Rattle.lrc_meaning.specs.Examples.{sums, one_and_two, decorated_sum, declarations, two_declarations};

/// The sum grammar and the declarations grammar are well formed.
pub fn examples_are_well_formed()
    ensures sums { IsTrue (is_well_formed sums) }
    ensures declarations { IsTrue (is_well_formed declarations) }
{}

/// `Add(Num(1), Num(2))` has the value 3, within two nodes.
pub fn three_nodes_have_their_sum()
    ensures { Attributes sums 2 one_and_two (int (pos 3) ∷ []) }
{}

/// A decorated tree with one wrong value is no attribution.
pub fn a_wrong_value_is_no_attribution()
    ensures { ¬ IsAttribution sums one_and_two (decorated_sum 4) }
{}

/// Two declarations under an inherited environment, with a local each: both are bad.
pub fn two_declarations_are_bad()
    ensures { Attributes declarations 4 two_declarations (int (pos 2) ∷ []) }
{}

/// The last tree of a session and all its attempts are fixed by its tree, its edits and their replies.
pub fn replies_tell_the_rest()
    ensures { RepliesTellTheRest }
{}

/// The signature of a production tells what stands at each of its occurrences, and what each is
/// called.
pub fn a_signature_tells_each_occurrence()
    ensures roles { TellsRoles }
    ensures calls { TellsCalls }
{}
