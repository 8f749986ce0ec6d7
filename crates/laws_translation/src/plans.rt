//! What a planner that is given the printed translation finds: its plans are the stepped plans of the old pair. A law
//! alone, there is no code here.

ghost use Rattle.laws_translation.specs.Plans.Laws.{PrintedPlans};

/// The pair that is read from the printed translation is the translated one, and its plans are the stepped plans.
pub fn printed_plans()
    ensures { PrintedPlans }
{}
