//! Laws of attribute grammars over their definitions alone: no tables, handles or memo. Each function
//! does nothing, and carries a law as its contract.
#![tactic(auto)]

mod attribution;
mod examples;
mod fuel;

pub use attribution::{
    attribution_is_unique, demand_is_reach, ordered_plans_are_sound, visits_are_few,
    visits_compute_the_attribution,
};
pub use examples::endless_expansion_has_no_attribution;
pub use fuel::height_is_least_fuel;
