//! What follows from the rule. The functions here do nothing; each carries a law as its contract.
ghost use Rattle.std.specs.Prelude.{◌≡◌, ℕ, suc, ◌+◌, ◌<◌, ◌≤◌, ◌==◌, true, List, [], length, replicate};
ghost use mathlib.Core.Option.{none};
ghost use prog.Atomic.{either};
ghost use Rattle.atomic_table.specs.Table.{Me, Allows, Splits, Joins, step, opening};
ghost use Rattle.lrc_store.specs.Cells.{CellTree};
ghost use Rattle.lrc_rule.specs.declared.layout.Layout.{Layout};
ghost use Rattle.lrc_rule.specs.declared.layout.Content.{Content};
ghost use Rattle.lrc_rule.specs.Layout.{word_count, bucket_at, part_at, memo_at, IsBucketOrPart};
ghost use Rattle.lrc_rule.specs.Home.{place_on};
ghost use Rattle.lrc_rule.specs.Rows.{IsTable, Stands, Grows, Fits, IsPassed, IsAbsent, IsPublished, bucket, part, full_buckets, content, depth};
ghost use Rattle.lrc_rule.specs.Memo.{IsMemoPair};
ghost use Rattle.lrc_rule.specs.Views.{View, Rule, now, next, opening_view, spent};
ghost use Rattle.lrc_rule.specs.Steps.{IsCurrent, IsDraftOf, loaded, sought, stored, exchanged, recalled, remembered, cleared, left_of, right_of, both};

use lrc_store::Meaning;

/// Published rows with equal contents are one row, and so a cell has one handle.
pub fn equal_rows_are_one()
    ensures rows { (l : Layout) (words : List ℕ) → IsTable l words → (row other : ℕ) → IsPublished l words row → IsPublished l words other → content l words row ≡ content l words other → row ≡ other }
    ensures handles { (l : Layout) (words : List ℕ) → IsTable l words → (cell : CellTree) (one other : ℕ) → Stands l words cell one → Stands l words cell other → one ≡ other }
    ensures cells { (l : Layout) (words : List ℕ) (cell other : CellTree) (handle : ℕ) → Stands l words cell handle → Stands l words other handle → cell ≡ other }
{}

/// What a handle stands for stays while the words grow.
pub fn published_rows_stand()
    ensures { (l : Layout) (before after : List ℕ) → Grows l before after → (cell : CellTree) (handle : ℕ) → Stands l before cell handle → Stands l after cell handle }
{}

/// A probe passes at most as many places as there are rows, of which there are fewer than buckets;
/// where it comes to an empty bucket, its cell is absent.
pub fn a_probe_ends()
    ensures ends { (l : Layout) (words : List ℕ) → IsTable l words → (c : Content) (steps : ℕ) → steps ≤ l.buckets → IsPassed l words c steps → steps ≤ l.rows }
    ensures absent { (l : Layout) (words : List ℕ) → IsTable l words → (cell : CellTree) (c : Content) (steps : ℕ) → Fits l words cell c → IsPassed l words c steps → bucket l words (place_on l c steps) ≡ 0 → IsAbsent l words cell }
{}

/// No cell in a table is deeper than there are full buckets, and so no depth in a published row
/// exceeds their number, which is at most that of the rows.
pub fn depths_are_bounded()
    ensures cells { (l : Layout) (words : List ℕ) → IsTable l words → (cell : CellTree) (handle : ℕ) → Stands l words cell handle → depth cell ≤ full_buckets l words }
    ensures rows { (l : Layout) (words : List ℕ) → IsTable l words → (row : ℕ) → IsPublished l words row → part l words row 3 ≤ full_buckets l words }
    ensures full { (l : Layout) (words : List ℕ) → IsTable l words → full_buckets l words ≤ l.rows }
{}

/// The rule is true of a new table, all of whose words are 0.
pub fn a_new_table_meets_the_rule<M: Meaning>()
    ensures { (meaning : M) (l : Layout) → Rule (M.allows meaning) (M.reach meaning) l (opening {S = Unit {0}} (replicate (word_count l) 0) [] (opening_view l)) }
{}

/// A load of a bucket or of a part of a row keeps the rule, also where a cell is sought and noted as
/// absent.
pub fn loads_keep_the_rule<M: Meaning>()
    ensures load { (meaning : M) (l : Layout) (slots id : ℕ) (me : Me (Unit {0}) View) (word : ℕ) → me.0.live ≡ true → IsBucketOrPart me.0.layout word → Allows (Rule (M.allows meaning) (M.reach meaning) l) slots id me word (λ n. n) (loaded (step slots word 0 0 none) me) }
    ensures seek { (meaning : M) (l : Layout) (slots id : ℕ) (me : Me (Unit {0}) View) (word : ℕ) (cell : CellTree) (c : Content) (steps : ℕ) → IsCurrent me.0 → word ≡ bucket_at me.0.layout (place_on me.0.layout c steps) → place_on me.0.layout c steps < me.0.layout.buckets → Fits me.0.layout (now me.0) cell c
        → IsPassed me.0.layout (now me.0) c steps → Allows (Rule (M.allows meaning) (M.reach meaning) l) slots id me word (λ n. n) (sought cell (step slots word 0 0 none) me) }
{}

/// A pass may store the next word of its draft, and then publish the whole draft where the places
/// before are passed.
pub fn publishing_keeps_the_rule<M: Meaning>()
    ensures draft { (meaning : M) (l : Layout) (slots id : ℕ) (me : Me (Unit {0}) View) (word k value : ℕ) → IsCurrent me.0 → word ≡ part_at me.0.layout (next me.0) k → k < 4 → k ≤ length me.0.learned.draft → length me.0.owned.made < me.0.owned.quota
        → Allows (Rule (M.allows meaning) (M.reach meaning) l) slots id me word (λ _. value) (λ _. stored (step slots word value 0 none) me value) }
    ensures publish { (meaning : M) (l : Layout) (slots id : ℕ) (me : Me (Unit {0}) View) (word new : ℕ) (cell : CellTree) (steps : ℕ) → IsCurrent me.0 → (d : IsDraftOf me.0.layout (now me.0) me.0.learned.draft cell)
        → word ≡ bucket_at me.0.layout (place_on me.0.layout d.content steps) → steps < me.0.layout.buckets → place_on me.0.layout d.content steps < me.0.layout.buckets → IsPassed me.0.layout (now me.0) d.content steps → length me.0.owned.made < me.0.owned.quota → new ≡ suc (next me.0)
        → Allows (Rule (M.allows meaning) (M.reach meaning) l) slots id me word (λ n. either (n == 0) new n) (exchanged (step slots word 0 new none) me) }
{}

/// A memo word may be loaded, a pair that the meaning allows and whose reach is in the table may be
/// stored there, and 0 may.
pub fn memo_steps_keep_the_rule<M: Meaning>()
    ensures load { (meaning : M) (l : Layout) (slots id : ℕ) (me : Me (Unit {0}) View) (word place : ℕ) → me.0.live ≡ true → word ≡ memo_at me.0.layout place → place < me.0.layout.memo
        → Allows (Rule (M.allows meaning) (M.reach meaning) l) slots id me word (λ n. n) (recalled (M.allows meaning) (M.reach meaning) (step slots word 0 0 none) me) }
    ensures store { (meaning : M) (l : Layout) (slots id : ℕ) (me : Me (Unit {0}) View) (word place value : ℕ) → IsCurrent me.0 → word ≡ memo_at me.0.layout place → place < me.0.layout.memo → IsMemoPair (M.allows meaning) (M.reach meaning) me.0.layout (now me.0) value
        → Allows (Rule (M.allows meaning) (M.reach meaning) l) slots id me word (λ _. value) (λ _. remembered (step slots word value 0 none) me value) }
    ensures clear { (meaning : M) (l : Layout) (slots id : ℕ) (me : Me (Unit {0}) View) (word place : ℕ) → IsCurrent me.0 → word ≡ memo_at me.0.layout place → place < me.0.layout.memo
        → Allows (Rule (M.allows meaning) (M.reach meaning) l) slots id me word (λ _. 0) (λ _. cleared (step slots word 0 0 none) me 0) }
{}

/// A pass may be cut in two, with at most the rows that are not used for the second, and may take in
/// another.
pub fn splitting_and_meeting_keep_the_rule<M: Meaning>()
    ensures split { (meaning : M) (l : Layout) (id : ℕ) (v : View) (amount : ℕ) → v.live ≡ true → amount + length v.owned.made ≤ v.owned.quota → Splits {S = Unit {0}} (Rule (M.allows meaning) (M.reach meaning) l) id v (left_of amount v) (right_of amount v) }
    ensures join { (meaning : M) (l : Layout) (id : ℕ) (v : View) (other : ℕ) (w : View) → v.live ≡ true → w.live ≡ true → Joins {S = Unit {0}} (Rule (M.allows meaning) (M.reach meaning) l) id v other w (both v w) spent }
{}
