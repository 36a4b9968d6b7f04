ghost use Rattle.std.specs.Prelude.{◌≡◌, ℕ, List};
ghost use Rattle.lrc_store.specs.Cells.{CellTree};
ghost use Rattle.lrc_meaning.specs.Tree.{Tree};
ghost use Rattle.lrc_code.specs.Forms.{list_cell, node_cell, name_cell, tree_cell, call_cell, result_cell, IsSpelling, AreSpelled};

/// Each form of cells is injective: equal cells stand for equal trees, names, lists, nodes, calls
/// and results. This does nothing; its contract is the law.
pub fn forms_are_injective()
    ensures trees { (one other : Tree) → AreSpelled one → AreSpelled other → tree_cell one ≡ tree_cell other → one ≡ other }
    ensures names { (one other : List ℕ) → IsSpelling one → IsSpelling other → name_cell one ≡ name_cell other → one ≡ other }
    ensures lists { (one other : List CellTree) → list_cell one ≡ list_cell other → one ≡ other }
    ensures nodes { (p q : ℕ) (kids others : CellTree) → node_cell p kids ≡ node_cell q others → (p ≡ q) × (kids ≡ others) }
    ensures calls { (t u : CellTree) (v w : ℕ) (i j b c : CellTree) → call_cell t v i b ≡ call_cell u w j c → (t ≡ u) × (v ≡ w) × (i ≡ j) × (b ≡ c) }
    ensures results { (m n : ℕ) (s t b c : CellTree) → result_cell m s b ≡ result_cell n t c → (m ≡ n) × (s ≡ t) × (b ≡ c) }
{}
