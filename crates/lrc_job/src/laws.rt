ghost use Rattle.lrc_job.specs.Laws.{FoundIsSession, SessionIsFound};

/// A session is found exactly where its tree names one of the start sort, and the terms of its puts
/// name trees that fit a kind.
pub fn sessions_exactly_where_fitting()
    ensures fits { FoundIsSession }
    ensures found { SessionIsFound }
{}
