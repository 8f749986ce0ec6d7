//! Laws over the definitions alone.
ghost use Rattle.plus_watch.specs.Laws.{LooksTell, LooksGrow, WatchTells, CallsTell};

use plus_number::exact::Exact;

/// What the looks along a history find is what the meaning over all moments tells.
pub fn looks_tell<Q: Exact>()
    ensures { LooksTell Q.fits }
{}

/// The looks grow with a history, part by part, and what they find stays.
pub fn looks_grow()
    ensures { LooksGrow }
{}

/// Where all that constraints ask at each part of a history passes, what is found of each is what its meaning tells.
pub fn watch_tells<Q: Exact>()
    ensures { WatchTells Q.fits }
{}

/// What the calls take and tell at each part is what the history asks and what is found along it.
pub fn calls_tell()
    ensures { CallsTell }
{}
