//! Laws over the definitions alone.
ghost use Rattle.plus_watcher.specs.Laws.{WatchedIsFound};

/// What is noted of constraints where no limit came is what is found of them.
pub fn watched_is_found()
    ensures { WatchedIsFound }
{}
