ghost use Rattle.std.specs.Prelude.{◌≡◌, Contains};
ghost use Rattle.commands.specs.declared.outputs.Output.{Output};
ghost use Rattle.commands.specs.Outputs.{all_outputs, extension_text};

/// An output of a feed that can be kept and compared.
#[derive(Clone, Copy, Debug, PartialEq, Eq)]
pub enum Output {
    /// The report, as `run` writes it.
    Report,
    /// The story of all tasks, as `explain` writes it.
    Story,
    /// The chart as a text of 80 columns, as `chart` writes it.
    Chart,
    /// The outcome of the job with each fault, as `faults` writes it, where a step that fails raises `Fault`.
    Faults,
    /// The places on which the outcome of the job depends by a hair, as `races` writes them.
    Races,
}

impl Output {
    /// Returns every kind of output, in the order in which `nursery test` compares them.
    pub fn all() -> [Output; 5]
        ensures kinds { result ≡ all_outputs }
        ensures each { (kind : Output) → Contains result kind }
    {
        [
            Output::Report,
            Output::Story,
            Output::Chart,
            Output::Faults,
            Output::Races,
        ]
    }

    /// Returns the extension of the file in which such an output is kept, without the dot.
    pub fn extension(self) -> &'static str
        ensures { result.now ≡ extension_text self }
    {
        match self {
            Output::Report => "report",
            Output::Story => "story",
            Output::Chart => "chart",
            Output::Faults => "faults",
            Output::Races => "races",
        }
    }
}
