//! Runs of sessions over stores: each edit's reply, and its line of text.
#![tactic(auto)]

mod editing;
mod gate;
mod laws;
mod lines;
mod playing;
mod reply;
mod solo;
mod values;

pub use gate::{Gate, OpenGate, Ticket};
pub use laws::runs_out_of_rows;
pub use playing::play;
pub use reply::{Line, Out, Outcome};
pub use solo::run_solo;
