ghost use Rattle.std.specs.Prelude.{◌≡◌, ◌<◌, length, MatchOption};
ghost use Rattle.lrc_ordered.specs.Cycles.{HasNone, IsFirst};

use lrc_graph::Relation;

/// The first production with an occurrence on a cycle, and its least such occurrence.
#[derive(Debug, Clone, Copy, PartialEq, Eq)]
pub struct Cycle {
    pub production: u32,
    pub occurrence: u32,
}

/// The first of the closed relations that pairs a point with itself, and the least such point.
pub fn first_cycle(relations: &[Relation]) -> Option<Cycle>
    requires { length relations.now < 1024 }
    ensures { MatchOption result (HasNone relations.now) (λ cycle. IsFirst relations.now cycle.production cycle.occurrence) }
{
    'productions: for production in 0..relations.len() {
        if let Some(occurrence) = relations[production].first_on_cycle() {
            return Some(Cycle {
                production: production as u32,
                occurrence,
            });
        }
    }
    None
}
