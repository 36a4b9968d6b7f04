ghost use Rattle.lrc_job.specs.TermLaws.{FoundFits, FittingIsFound};

/// A term is found exactly where it names a tree that fits a kind.
pub fn found_exactly_where_fitting()
    ensures fits { FoundFits }
    ensures found { FittingIsFound }
{}
