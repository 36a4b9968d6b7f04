//! What a seat at the table knows, as plain data: no value of it is made.
use crate::layout::Layout;
use atomic_table::TableRule;
use lrc_store::Meaning;
use std::marker::{Model, PhantomData};

/// The view of a pass. Contracts see it as a `View`.
#[derive(Drop)]
pub struct Viewed;

impl Model for Viewed {
    ghost use Rattle.lrc_rule.specs.Views.{View, coded_view, spent};

    ghost Value = { View };

    ghost coded = { coded_view };

    ghost view = { λ _. spent };
}

/// What a table is told once, when it is made: where its words lie, and what its memo words mean.
#[derive(Drop)]
pub struct Key<M> {
    pub layout: Layout,
    pub meaning: M,
}

/// The rule of a shared table.
pub struct Rules<M> {
    meaning: PhantomData<M>,
}

impl<M: Meaning> TableRule<(), Viewed, Key<M>> for Rules<M> {
    ghost use Rattle.lrc_rule.specs.Views.{Rule, opening_view};

    ghost holds = { λ key. Rule (M.allows key.meaning) (M.reach key.meaning) key.layout };

    ghost first = { λ key. opening_view key.layout };
}
