//! Constraints of one problem.
ghost use Rattle.plus_watcher.specs.Fitting.{AllFit, AllFit-prop, AreFew, AreFew-prop};

use plus_number::frac::Frac64;
use plus_watch::watched::Watched;

/// Constraints to be watched, over a problem with so many atoms and fluents.
#[derive(Drop)]
pub struct Rules<'w> {
    pub watched: &'w [Watched<Frac64>],
    pub atoms: u32,
    pub fluents: u32,
    pub ghost fits: { AllFit atoms fluents watched.now } by { AllFit-prop atoms fluents watched.now },
    pub ghost few: { AreFew watched.now } by { AreFew-prop watched.now },
}
