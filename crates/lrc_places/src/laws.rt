ghost use Rattle.std.specs.Prelude.{◌≡◌, ◌≤◌, ℕ, List, length, Some, IsTrue};
ghost use Rattle.std.specs.Option.{option_and_then};
ghost use Rattle.lrc_base.specs.declared.grammar.Kind.{Kind};
ghost use Rattle.lrc_base.specs.declared.grammar.Production.{Production};
ghost use Rattle.lrc_meaning.specs.Tree.{Tree, fits, kind_of, tree_height, at_place, replaced};
ghost use Rattle.lrc_store.specs.Cells.{parts, IsWithin};
ghost use Rattle.lrc_code.specs.Forms.{tree_cell, are_productions_below};
ghost use Rattle.lrc_call_meaning.specs.Spelled.{IsSpelled};
ghost use Rattle.lrc_places.specs.Places.{declared_at};

/// The parts of the cell of what stands at a place are parts of the tree's cell, and those of what is
/// put there are parts of the replaced tree's. This does nothing; its contract is the law.
pub fn parts_of_parts()
    ensures at_places { (t u : Tree) (steps : List ℕ) → at_place t steps ≡ Some u → IsWithin (parts (tree_cell u)) (parts (tree_cell t)) }
    ensures put { (t u old : Tree) (steps : List ℕ) → at_place t steps ≡ Some old → IsWithin (parts (tree_cell u)) (parts (tree_cell (replaced t steps u))) }
{}

/// What is put at a place stands there. This does nothing; its contract is the law.
pub fn what_is_put_is_there()
    ensures { (t u old : Tree) (steps : List ℕ) → at_place t steps ≡ Some old → at_place (replaced t steps u) steps ≡ Some u }
{}

/// The kind of what stands at a place of a tree that fits is the one that is declared for it along its
/// path, and it fits it. This does nothing; its contract is the law.
pub fn each_place_is_of_its_kind()
    ensures kinds { (prods : List Production) (t : Tree) (kind : Kind) (steps : List ℕ) → IsTrue (fits prods t kind) → option_and_then (kind_of prods) (at_place t steps) ≡ declared_at prods t kind steps }
    ensures fitting { (prods : List Production) (t part : Tree) (kind own : Kind) (steps : List ℕ) → IsTrue (fits prods t kind) → at_place t steps ≡ Some part → kind_of prods part ≡ Some own → IsTrue (fits prods part own) }
{}

/// A tree that fits a kind fits it again with a part replaced by one of the part's kind. This does
/// nothing; its contract is the law.
pub fn replaced_trees_fit()
    ensures { (prods : List Production) (t u old : Tree) (steps : List ℕ) (kind own : Kind) → IsTrue (fits prods t kind) → at_place t steps ≡ Some old → kind_of prods old ≡ Some own → IsTrue (fits prods u own) → IsTrue (fits prods (replaced t steps u) kind) }
{}

/// The names of a part are spelled where the tree's are, and those of a replaced tree where the tree's
/// and the new part's are. This does nothing; its contract is the law.
pub fn replaced_trees_are_spelled()
    ensures at_places { (t u : Tree) (steps : List ℕ) → IsSpelled t → at_place t steps ≡ Some u → IsSpelled u }
    ensures replaced { (t u : Tree) (steps : List ℕ) → IsSpelled t → IsSpelled u → IsSpelled (replaced t steps u) }
{}

/// What stands at a place is no higher than the tree. This does nothing; its contract is the law.
pub fn parts_are_no_higher()
    ensures { (t u : Tree) (steps : List ℕ) → at_place t steps ≡ Some u → tree_height u ≤ tree_height t }
{}

/// The productions of a tree that fits are numbers below the count of productions. This does nothing;
/// its contract is the law.
pub fn productions_of_a_fitting_tree()
    ensures { (prods : List Production) (limit : ℕ) (t : Tree) (kind : Kind) → length prods ≤ limit → IsTrue (fits prods t kind) → IsTrue (are_productions_below limit t) }
{}
