ghost use Rattle.std.specs.Prelude.{◌≡◌, ◌↔◌, List, IsTrue};
ghost use Rattle.lrc_base.specs.declared.grammar.Kind.{Kind};
ghost use Rattle.lrc_base.specs.declared.grammar.Production.{Production};
ghost use Rattle.lrc_meaning.specs.Tree.{Tree, same_tree};
ghost use Rattle.lrc_meaning.specs.Expression.{Expression, value_of};
ghost use Rattle.lrc_meaning.specs.Grammar.{Occurrence};
ghost use Rattle.lrc_code.specs.Forms.{tree_cell};
ghost use Rattle.lrc_call_meaning.specs.Spelled.{IsSpelled};
ghost use Rattle.lrc_eval.specs.Evaluating.{Inputs, leaves};
ghost use Rattle.lrc_eval.specs.Kinds.{HasKind, AreOfKinds};

/// Trees whose names are spelled are the same exactly where their cells are equal. This does nothing;
/// its contract is the law.
pub fn trees_are_the_same_by_cells()
    ensures { (one other : Tree) → IsSpelled one → IsSpelled other → IsTrue (same_tree one other) ↔ (tree_cell one ≡ tree_cell other) }
{}

/// An expression of a kind, over values of occurrences and children of theirs, has a value, and it is
/// of the kind. This does nothing; its contract is the law.
pub fn values_are_of_their_kinds()
    ensures { (prods : List Production) (occurrences : List Occurrence) (x : Inputs) (e : Expression) (kind : Kind) → AreOfKinds prods occurrences x e kind → HasKind prods (value_of x.values (leaves x) e) kind }
{}
