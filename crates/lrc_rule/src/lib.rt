//! The rule of a table that threads share: where its words lie, what is true of them and of each
//! pass between any two atomic steps, and which steps keep that.
#![tactic(auto)]

mod homes;
mod laws;
mod layout;
mod plays;
mod views;

pub use homes::{home, place};
pub use laws::{
    a_new_table_meets_the_rule, a_probe_ends, depths_are_bounded, equal_rows_are_one,
    loads_keep_the_rule, memo_steps_keep_the_rule, published_rows_stand, publishing_keeps_the_rule,
    splitting_and_meeting_keep_the_rule,
};
pub use layout::{Content, Layout};
pub use plays::{
    Amount, ClearMemo, Cut, Draft, Load, LoadMemo, Meet, Publish, Seek, Sense, Sought, StoreMemo,
};
pub use views::{Key, Rules, Viewed};
