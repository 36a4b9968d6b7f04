ghost use Rattle.std.specs.Prelude.{◌≡◌, ◌-◌, ◌≤◌, ◌<◌, ◌^◌, ℕ, suc, List, Option, IfOk, OnErr};
ghost use Rattle.lrc_visit_meaning.specs.Values.{Call};
ghost use Rattle.lrc_store.specs.Cells.{CellTree, IsWithin};
ghost use Rattle.lrc_store.specs.Standing.{Standing, Told, IsRemembered};
ghost use Rattle.lrc_store.specs.Words.{Gains, Lasts, LacksOne};
ghost use Rattle.lrc_machine.specs.Steps.{Opens, Moves};
ghost use Rattle.lrc_machine.specs.Counts.{Pairs, KeepsPairs, IsKept, IsMissed, IsGained};

use lrc_store::{Full, Handle, Store};

/// What there is of a call before its body runs.
#[derive(Debug, Clone, Copy)]
pub enum Opened<M> {
    /// Its result is remembered.
    Hit(Handle),
    /// Its body is at its start.
    Begun(M),
    /// It has no result with this fuel.
    Deep,
}

/// What a body does next.
#[derive(Debug, Clone, Copy)]
pub enum Moved<M> {
    /// It went on.
    Went(M),
    /// It waits for the result of a call.
    Asked(M, Handle),
    /// It ended with this result.
    Ended(Handle),
    /// Its call has no result with this fuel.
    Deep,
}

/// The steps of bodies of visits over a store. A mark says where in its actions a body is, and a frame
/// has what it holds.
pub trait Bodies<St: Store> {
    type Frame;

    type Mark: Copy;

    // The handle stands for the call.
    ghost asks: { Self → Standing → Call → ℕ → Type 0 };

    // The handle stands for the result of the call with so much fuel, and all that is met is in the store for good.
    ghost gives: { Self → Standing → ℕ → Call → ℕ → Type 0 };

    // The call has no result with so much fuel.
    ghost lacks: { Self → ℕ → Call → Type 0 };

    // The cells of what it meets with so much fuel.
    ghost meets: { Self → ℕ → Call → List CellTree };

    // The cell by which the result of a call is remembered.
    ghost form: { Self → Call → CellTree };

    // A visit of the first call with so much fuel makes the second, the first itself among them.
    ghost calls: { Self → ℕ → Call → Call → Type 0 };

    // With each call of the memo the calls are remembered that its visit makes.
    ghost whole: { Self → Option Pairs → Type 0 };

    // The call has a result of this height with so much fuel.
    ghost height: { Self → ℕ → Call → ℕ → Type 0 };

    // A body of the call, with fuel n + 1, runs at the mark over the frame.
    ghost runs: { Self → Standing → Self.Frame → ℕ → Call → Self.Mark → Type 0 };

    // A body of the first call, with fuel n + 1, waits at the mark for the second call, which is to be made with fuel n.
    ghost waits: { Self → Standing → Self.Frame → ℕ → Call → Self.Mark → Call → Type 0 };

    // What is remembered in the store means what these bodies compute.
    ghost means: { Self → St.M → Type 0 };

    // The frame has room for each body.
    ghost fits: { Self → Self.Frame → Type 0 };

    // How many actions a body has left at the mark, and how many one has at most.
    ghost left: { Self → Self.Mark → ℕ };

    ghost most: { Self → ℕ };

    /// Opens a call at a level: what is remembered of it, or its body at the start, over the level's
    /// frame.
    fn open(
        &self,
        store: &mut St,
        frame: &mut Self::Frame,
        level: u32,
        call: Handle,
    ) -> Opened<Self::Mark>
        requires level { level < 2 ^ 32 - 1 }
        requires meaning { means self.now (St.meaning store.old) }
        requires room { fits self.now frame.old }
        requires call { (c : Call) × asks self.now (St.state store.old) c call.0 }
        ensures room { fits self.now frame.new }
        ensures gains { (c : Call) → asks self.now (St.state store.old) c call.0 → Gains (St.state store.old) (St.state store.new) (meets self.now (suc level) c) }
        ensures opens { (c : Call) → asks self.now (St.state store.old) c call.0 → Opens (gives self.now (St.state store.new) (suc level) c) (λ m. runs self.now (St.state store.new) frame.new level c m × (left self.now m ≤ most self.now)) (lacks self.now (suc level) c) result }
        ensures counts { (c : Call) → asks self.now (St.state store.old) c call.0 → Opens (λ _. IsKept (St.state store.old) (St.state store.new)) (λ _. IsMissed (St.state store.old) (St.state store.new) (form self.now c)) ((St.state store.new).memo ≡ (St.state store.old).memo) result }
        ensures same_meaning { St.meaning store.new ≡ St.meaning store.old };

    /// Does the next action of the body at the mark.
    ///
    /// # Errors
    ///
    /// Full, only where all rows are used and a cell of what the body meets is in none.
    fn advance(
        &self,
        store: &mut St,
        frame: &mut Self::Frame,
        level: u32,
        mark: Self::Mark,
    ) -> Result<Moved<Self::Mark>, Full>
        requires level { level < 2 ^ 32 - 1 }
        requires meaning { means self.now (St.meaning store.old) }
        requires room { fits self.now frame.old }
        requires body { (c : Call) × runs self.now (St.state store.old) frame.old level c mark }
        ensures room { fits self.now frame.new }
        ensures gains { (c : Call) → runs self.now (St.state store.old) frame.old level c mark → Gains (St.state store.old) (St.state store.new) (meets self.now (suc level) c) }
        ensures moves { (c : Call) → runs self.now (St.state store.old) frame.old level c mark → IfOk result (Moves (λ m. runs self.now (St.state store.new) frame.new level c m × (left self.now m < left self.now mark)) (λ m h. (d : Call) × waits self.now (St.state store.new) frame.new level c m d × asks self.now (St.state store.new) d h × (1 ≤ left self.now m) × (left self.now m ≤ left self.now mark)) (gives self.now (St.state store.new) (suc level) c) (lacks self.now (suc level) c)) }
        ensures full { (c : Call) → runs self.now (St.state store.old) frame.old level c mark → OnErr result (LacksOne (St.state store.new) (meets self.now (suc level) c)) }
        ensures counts { (c : Call) → runs self.now (St.state store.old) frame.old level c mark → IfOk result (Moves (λ _. IsKept (St.state store.old) (St.state store.new)) (λ _ _. IsKept (St.state store.old) (St.state store.new)) (λ _. IsGained (St.state store.old) (St.state store.new) (form self.now c)) (IsKept (St.state store.old) (St.state store.new))) }
        ensures wholes { (c : Call) → runs self.now (St.state store.old) frame.old level c mark → whole self.now (St.state store.old).memo → whole self.now (St.state store.new).memo }
        ensures same_meaning { St.meaning store.new ≡ St.meaning store.old };

    /// Takes the result for which the body at the mark waits.
    fn resume(
        &self,
        store: &mut St,
        frame: &mut Self::Frame,
        level: u32,
        mark: Self::Mark,
        given: Handle,
    ) -> Self::Mark
        requires meaning { means self.now (St.meaning store.old) }
        requires room { fits self.now frame.old }
        requires body { (c : Call) × (d : Call) × waits self.now (St.state store.old) frame.old level c mark d × gives self.now (St.state store.old) level d given.0 }
        ensures room { fits self.now frame.new }
        ensures gains { (c d : Call) → waits self.now (St.state store.old) frame.old level c mark d → gives self.now (St.state store.old) level d given.0 → Gains (St.state store.old) (St.state store.new) (meets self.now (suc level) c) }
        ensures runs { (c d : Call) → waits self.now (St.state store.old) frame.old level c mark d → gives self.now (St.state store.old) level d given.0 → runs self.now (St.state store.new) frame.new level c result × (left self.now result < left self.now mark) }
        ensures kept { IsKept (St.state store.old) (St.state store.new) }
        ensures same_meaning { St.meaning store.new ≡ St.meaning store.old };

    // With no fuel there is no result.
    ghost bottom: { (b : Self) (c : Call) → lacks b 0 c };

    // Where the call has no result for which a body waits, the body's call has none.
    ghost deep: { (b : Self) (s : Standing) (f : Self.Frame) (n : ℕ) (c : Call) (m : Self.Mark) (d : Call) → waits b s f n c m d → lacks b n d → lacks b (suc n) c };

    // What that call meets is met by the body's call.
    ghost within: { (b : Self) (s : Standing) (f : Self.Frame) (n : ℕ) (c : Call) (m : Self.Mark) (d : Call) → waits b s f n c m d → IsWithin (meets b n d) (meets b (suc n) c) };

    // A body waits on while the store's knowledge and its memo grow.
    ghost lasts: { (b : Self) (s t : Standing) (f : Self.Frame) (n : ℕ) (c : Call) (m : Self.Mark) (d : Call) → waits b s f n c m d → Lasts s t → KeepsPairs s.memo t.memo → waits b t f n c m d };

    // A call is made by its own visit, and what the visit makes that a body waits for is made by the body's.
    ghost own: { (b : Self) (n : ℕ) (c : Call) → calls b n c c };

    ghost calls_within: { (b : Self) (s : Standing) (f : Self.Frame) (n : ℕ) (c : Call) (m : Self.Mark) (d : Call) → waits b s f n c m d → (e : Call) → calls b n d e → calls b (suc n) c e };

    // Where the memo is whole, the calls of a call whose result is there are remembered.
    ghost sure: { (b : Self) (s : Standing) (n : ℕ) (c : Call) (handle : ℕ) → gives b s n c handle → whole b s.memo → (d : Call) → calls b n c d → Told s.memo (λ pairs. IsRemembered pairs (form b d)) };

    // A call whose result is there has one height,
    ghost one_height: { (b : Self) (s : Standing) (n : ℕ) (c : Call) (handle : ℕ) → gives b s n c handle → (h : ℕ) × height b n c h × ((k : ℕ) → height b n c k → h ≡ k) };

    // a call for which a body waits has a lower one than the body's call,
    ghost lower: { (b : Self) (s : Standing) (f : Self.Frame) (n : ℕ) (c : Call) (m : Self.Mark) (d : Call) → waits b s f n c m d → (h : ℕ) → height b (suc n) c h → (k : ℕ) × height b n d k × (k < h) };

    // and calls of one cell have the same one, also with more fuel.
    ghost same_height: { (b : Self) (s t : Standing) (f g : Self.Frame) (n k : ℕ) (c : Call) (m : Self.Mark) (d : Call) (e : Call) (o : Self.Mark) → waits b s f n c m d → runs b t g k e o → form b c ≡ form b e → k ≤ n → (h : ℕ) → height b (suc k) e h → height b (suc n) c h };
}
