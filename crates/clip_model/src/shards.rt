//! A registry that is divided over processes.

ghost use Rattle.clip_model.specs.Shards.{PartsAreRegistered, PartsAlert, PartsAreMerged, PartsAreCounted, PartsCount};
ghost use Rattle.clip_model.specs.Shards.{PartsAreHeard, PartsAreHeardMerged, PartsAreLegal, PartsGoOn, PartsHaveRoom};

/// A registry that is divided over processes by the ids of its queries answers as one: where each process is given of
/// every command only the ids of its part, the processes hold together just the queries of the whole, their alerts
/// merged by id are those of the whole, for each listener too, their counts add up to those of the whole, and each has
/// a legal history.
pub fn law_of_shards()
    ensures registered { PartsAreRegistered }
    ensures alerts { PartsAlert }
    ensures merged { PartsAreMerged }
    ensures count { PartsAreCounted }
    ensures applied { PartsCount }
    ensures heard { PartsAreHeard }
    ensures heard_merged { PartsAreHeardMerged }
    ensures legal { PartsAreLegal }
    ensures goes_on { PartsGoOn }
    ensures room { PartsHaveRoom }
{}
