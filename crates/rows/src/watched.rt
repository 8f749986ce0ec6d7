//! Constraints over all moments of a history, and what looking at them asks: each row a proved fact.
ghost use Rattle.rows.specs.Watched.Tank.{TankRows};
ghost use Rattle.rows.specs.Watched.Ramp.{RampRows, RampAsks};

/// What is found of six constraints on the history of a tank.
pub fn tank_rows()
    ensures { TankRows }
{}

/// What is found of fourteen constraints where x crosses 5 inside a stretch.
pub fn ramp_rows()
    ensures { RampRows }
{}

/// What constraints ask there, in order.
pub fn ramp_asks()
    ensures { RampAsks }
{}
