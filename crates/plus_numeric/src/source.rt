//! Where the texts of a pair come from.
ghost use Rattle.std.specs.Prelude.{◌≡◌};
ghost use Rattle.plus_numeric.specs.Verdicts.{text_in};

use plus_report::Text;
use plus_types::File;

/// Where the texts of a pair come from, by which a line names them.
#[derive(Clone, Copy, PartialEq, Eq)]
pub enum Source {
    /// They were given: `domain` and `problem`.
    Given,
    /// They are a translation that was printed: `translated domain` and `translated problem`.
    Translated,
}

impl Source {
    /// The text that is meant by a file.
    pub fn text(self, file: File) -> Text
        ensures { result ≡ text_in self file }
    {
        match (self, file) {
            (Source::Given, File::Domain) => Text::Domain,
            (Source::Given, File::Problem) => Text::Problem,
            (Source::Translated, File::Domain) => Text::TranslatedDomain,
            (Source::Translated, File::Problem) => Text::TranslatedProblem,
        }
    }
}
