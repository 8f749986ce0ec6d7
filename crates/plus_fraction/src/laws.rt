//! The laws of fractions. Each stands as the contract of a function that does nothing.
ghost use Rattle.plus_fraction.specs.FieldLaws.{GcdIsGreatest, EqualByCross, OverIsQuotient};
ghost use Rattle.plus_fraction.specs.FieldLaws.{SumsCommute, SumsAssociate, ZeroIsNeutral};
ghost use Rattle.plus_fraction.specs.FieldLaws.{OppositesCancel, DifferencesAddOpposites};
ghost use Rattle.plus_fraction.specs.FieldLaws.{ProductsCommute, ProductsAssociate, OneIsNeutral};
ghost use Rattle.plus_fraction.specs.FieldLaws.{ProductsDistribute, QuotientsUndo, ZeroIsNotOne};
ghost use Rattle.plus_fraction.specs.OrderLaws.{LessIsIrreflexive, LessIsTransitive, LessIsTotal};
ghost use Rattle.plus_fraction.specs.OrderLaws.{AtMostIsLessOrEqual, OrderIsDense};
ghost use Rattle.plus_fraction.specs.OrderLaws.{SumsKeepOrder, ProductsKeepOrder};
ghost use Rattle.plus_fraction.specs.OrderLaws.{LessTells, EqualTells, GreaterTells, SameTells};
ghost use Rattle.plus_fraction.specs.LineLaws.{RisingHasRoot, FallingHasRoot, StaysBelow};
ghost use Rattle.plus_fraction.specs.LineLaws.{OneOrderApart, OneSlopeOneOrder};
ghost use Rattle.plus_fraction.specs.LineLaws.{OrderJustAfter, TestJustAfter};
ghost use Rattle.plus_fraction.specs.LineLaws.{LessJustAfter, AtMostJustAfter, EqualJustAfter};

/// A fraction is a reduced pair: one pair for each number, and `over n d` is that of n/d.
pub fn fractions_are_canonical()
    ensures gcd { GcdIsGreatest }
    ensures equal { EqualByCross }
    ensures over { OverIsQuotient }
{}

/// Sums of fractions are a commutative group.
pub fn sums_form_a_group()
    ensures commute { SumsCommute }
    ensures associate { SumsAssociate }
    ensures zero { ZeroIsNeutral }
    ensures opposites { OppositesCancel }
    ensures differences { DifferencesAddOpposites }
{}

/// With products and quotients, fractions are a field.
pub fn fractions_form_a_field()
    ensures commute { ProductsCommute }
    ensures associate { ProductsAssociate }
    ensures one { OneIsNeutral }
    ensures distribute { ProductsDistribute }
    ensures quotients { QuotientsUndo }
    ensures apart { ZeroIsNotOne }
{}

/// The order is total and dense.
pub fn order_is_total()
    ensures irreflexive { LessIsIrreflexive }
    ensures transitive { LessIsTransitive }
    ensures total { LessIsTotal }
    ensures at_most { AtMostIsLessOrEqual }
    ensures dense { OrderIsDense }
{}

/// Sums and products with a number above 0 keep the order.
pub fn operations_keep_order()
    ensures sums { SumsKeepOrder }
    ensures products { ProductsKeepOrder }
{}

/// The tests `compared` and `==ℚ` tell the order and the equality of fractions.
pub fn tests_tell_order()
    ensures less { LessTells }
    ensures equal { EqualTells }
    ensures greater { GreaterTells }
    ensures same { SameTells }
{}

/// A line that changes its sign has a root between.
pub fn sign_change_has_root()
    ensures rising { RisingHasRoot }
    ensures falling { FallingHasRoot }
{}

/// Between two places where two lines do not meet, they keep their order.
pub fn order_is_constant_between_meetings()
    ensures below { StaysBelow }
    ensures alike { OneOrderApart }
    ensures one_slope { OneSlopeOneOrder }
{}

/// What holds of two lines just after 0 is told by their values and slopes.
pub fn values_and_slopes_tell_just_after()
    ensures order { OrderJustAfter }
    ensures test { TestJustAfter }
    ensures less { LessJustAfter }
    ensures at_most { AtMostJustAfter }
    ensures equal { EqualJustAfter }
{}
