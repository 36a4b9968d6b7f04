ghost use Rattle.std.specs.Prelude.{◌≡◌, ◌<◌, ◌++◌, ◌∷◌, [], length, IfOk};

use lrc_base::Memory;
use lrc_store::Handle;
use std::alloc::Global;
use std::marker::Model;

/// A stack of handles. All its room is taken when it is made. Contracts see it as the handles that it
/// holds, from the first to the last, and how many it has room for.
#[derive(Debug, Drop)]
pub struct Handles {
    held: Vec<Handle>,
}

impl Model for Handles {
    ghost use Rattle.std.specs.Prelude.{vec_capacity};
    ghost use Rattle.lrc_code.specs.Stack.{Stack};

    ghost Value = { Stack };

    ghost view = { λ h. record { held = h.held.items; room = vec_capacity h.held } };
}

impl Handles {
    /// No handles, and room for so many.
    ///
    /// # Errors
    ///
    /// Want of memory.
    pub fn with_room(alloc: Global, room: usize) -> Result<Handles, Memory>
        ensures held { IfOk result (λ handles. handles.held ≡ []) }
        ensures room { IfOk result (λ handles. handles.room ≡ room) }
    {
        Ok(Handles {
            held: Vec::with_capacity(alloc, room)?,
        })
    }

    /// Takes all handles off.
    pub fn clear(&mut self)
        ensures held { self.new.held ≡ [] }
        ensures room { self.new.room ≡ self.old.room }
    {
        self.held.clear();
    }

    /// Adds a handle, for which there is room.
    pub fn push(&mut self, handle: Handle)
        requires { length self.old.held < self.old.room }
        ensures held { self.new.held ≡ self.old.held ++ handle ∷ [] }
        ensures room { self.new.room ≡ self.old.room }
    {
        self.held.push_reserved(handle);
    }

    /// Takes the last handle off, where there is one.
    pub fn take_last(&mut self) -> Handle
        requires { 0 < length self.old.held }
        ensures held { self.old.held ≡ self.new.held ++ result ∷ [] }
        ensures room { self.new.room ≡ self.old.room }
    {
        self.held.take_last()
    }
}
