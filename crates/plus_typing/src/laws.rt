//! The laws, the contracts of functions with empty bodies.
ghost use Rattle.plus_typing.specs.Laws.{WellTypedByStatements, WellTypedIsDecided, FirstBroken, FirstFaultIsFirstUnmet, FaultsNameRules, AboveIsDecided};

/// A pair is well typed exactly where it obeys each rule.
pub fn well_typed_by_statements()
    ensures { WellTypedByStatements }
{}

/// So the test that other definitions cite says exactly whether it does.
pub fn well_typed_is_decided()
    ensures { WellTypedIsDecided }
{}

/// The faults of a pair are those of the rules that are not met, in the order in which they are asked.
pub fn first_broken()
    ensures { FirstBroken }
{}

/// The first fault, which a check answers, is that of the first rule that is not met: all that is
/// asked before is met.
pub fn first_fault_is_first_unmet()
    ensures { FirstFaultIsFirstUnmet }
{}

/// Each fault names a rule that the pair does not obey, and so does the first.
pub fn faults_name_rules()
    ensures { FaultsNameRules }
{}

/// The test by which a check tells whether one type is above another takes at most as many steps up as
/// there are listed types, and one: it finds each way up, however long.
pub fn above_is_decided()
    ensures { AboveIsDecided }
{}
