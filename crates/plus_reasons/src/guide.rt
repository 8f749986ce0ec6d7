//! Which section of the documents says what to do.

use plus_expected::say::append_line;
use std::alloc::AllocError;

/// Words of a verdict line, and the section of docs/modelling.md on it.
struct Guide {
    words: &'static str,
    section: &'static str,
}

static GUIDES: [Guide; 18] = [
    Guide {
        words: " is unsettled",
        section: "A process that slides",
    },
    Guide {
        words: " reads moving ",
        section: "Rates that read moving numbers",
    },
    Guide {
        words: " repeats",
        section: "Events that must undo their own condition",
    },
    Guide {
        words: " has no first moment at ",
        section: "Strict comparisons and first moments",
    },
    Guide {
        words: "invalid: conflict on ",
        section: "Writes that do not go together",
    },
    Guide {
        words: "invalid: no value for ",
        section: "Values that are missing",
    },
    Guide {
        words: "beyond: number ",
        section: "Numbers that stay small",
    },
    Guide {
        words: "beyond: literal ",
        section: "Numbers that stay small",
    },
    Guide {
        words: "beyond: nonlinear in ",
        section: "Rates that read moving numbers",
    },
    Guide {
        words: "beyond: happenings ",
        section: "Plans of many moments",
    },
    Guide {
        words: "beyond: more than ",
        section: "Too many of a kind",
    },
    Guide {
        words: ": not level two",
        section: "Grids and `lift`",
    },
    Guide {
        words: ": name taken",
        section: "Grids and `lift`",
    },
    Guide {
        words: ": off grid",
        section: "Grids and `lift`",
    },
    Guide {
        words: ": rate form",
        section: "The forms of `#t`",
    },
    Guide {
        words: "bad text: plan line ",
        section: "Plans of other planners",
    },
    Guide {
        words: "spent: ",
        section: "A plan from planplus itself",
    },
    Guide {
        words: "none: ",
        section: "A plan from planplus itself",
    },
];

/// Appends which section of the documents says what to do about a verdict, where one does.
pub fn append_guide(into: &mut Vec<u8>, verdict: &str) -> Result<(), AllocError> {
    for guide in &GUIDES {
        if verdict.contains(guide.words) {
            return append_line(into, &["see \"", guide.section, "\" in docs/modelling.md"]);
        }
    }
    Ok(())
}
