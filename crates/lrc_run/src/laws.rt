ghost use Rattle.lrc_run.specs.Laws.{RunsOutOfRows};

/// Where the rows of a store with so many have run out, so many are fewer than what is demanded. This
/// does nothing; its contract is the law.
pub fn runs_out_of_rows()
    ensures { RunsOutOfRows }
{}
