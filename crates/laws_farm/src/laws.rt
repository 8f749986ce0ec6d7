//! The pair of a farm. Laws alone, there is no code here.

ghost use Rattle.laws_farm.specs.Farms.{FarmsArePairs, TrialsAreWorked, CutTrialsAreWorked};

/// The two texts of a farm of 1 to 1,000 tanks are within the limits of length and depth, spell a pair, and are well typed.
pub fn farms_are_pairs()
    ensures { FarmsArePairs }
{}

/// So a trial is never answered by a refusal of its pair: what is replied sums up the judgement on the farm's plan.
pub fn trials_are_worked()
    ensures whole { TrialsAreWorked }
    ensures cut { CutTrialsAreWorked }
{}
