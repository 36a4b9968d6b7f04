ghost use Rattle.lrc_ordered.specs.Tables.{AreTables, AreSettled};

use crate::gather::gather;
use crate::spread::spread;
use lrc_base::List;
use lrc_graph::Relation;
use lrc_order_meaning::Place;

/// Adds to the tables of productions and sorts all that follows from them.
pub fn settle(relations: &mut [Relation], sorts: &mut [Relation], places: &[List<Place>])
    requires { AreTables relations.old sorts.old places.now }
    ensures { AreSettled relations.old relations.new sorts.old sorts.new places.now }
{
    spread(relations, sorts, places);
    'rounds: while gather(sorts, relations, places) {
        spread(relations, sorts, places);
    }
}
