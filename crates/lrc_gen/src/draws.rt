ghost use Rattle.std.specs.Prelude.{◌≡◌, ◌<◌};
ghost use Rattle.lrc_gen.specs.Drawing.{draw};
ghost use Rattle.lrc_gen.specs.Generated.{letter};

use crate::names::name;
use lrc_base::NameText;

/// The draws of a job: each number comes from the state that the draw before it left behind.
#[derive(Debug, Clone, Copy)]
pub struct Draws {
    pub state: u32,
}

impl Draws {
    /// A number below the bound.
    pub fn draw(&mut self, bound: u32) -> u32
        requires { 0 < bound }
        ensures value { result ≡ (draw bound self.old.state).0 }
        ensures state { self.new.state ≡ (draw bound self.old.state).1 }
    {
        self.state = ((75 * u64::from(self.state) + 74) % 65_537) as u32;
        self.state % bound
    }

    /// One of the names `a`, `b`, `c` and `d`.
    pub fn letter(&mut self) -> NameText
        ensures value { result ≡ letter (draw 4 self.old.state).0 }
        ensures state { self.new.state ≡ (draw 4 self.old.state).1 }
    {
        let number = self.draw(4) as u8;
        name(&[b'a' + number])
    }
}
