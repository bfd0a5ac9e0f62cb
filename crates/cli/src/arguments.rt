use job_edits::Target;
use job_runner::Settings;
use outcomes::Options;

/// The arguments of `run`.
#[derive(Drop)]
pub struct RunArgs {
    /// The job file, or `-` for standard input.
    pub job: String,
    /// The input file, or `-` for standard input. `None` is the input that the job file holds, or else an empty one.
    pub input: Option<String>,
    /// The number of workers, and the last tick at which the job may end.
    pub settings: Settings,
    /// Whether the output is one JSON document.
    pub json: bool,
}

/// The arguments of `explain`.
#[derive(Drop)]
pub struct ExplainArgs {
    /// The job file, or `-` for standard input.
    pub job: String,
    /// The input file, or `-` for standard input. `None` is the input that the job file holds, or else an empty one.
    pub input: Option<String>,
    /// The label of the only task that the story is about, of at most `MAX_LABEL` bytes. `None` is all tasks.
    pub task: Option<String>,
    /// The number of workers, and the last tick of the story.
    pub settings: Settings,
    /// Whether the output is one JSON document.
    pub json: bool,
}

/// The arguments of `chart`.
#[derive(Drop)]
pub struct ChartArgs {
    /// The job file, or `-` for standard input.
    pub job: String,
    /// The input file, or `-` for standard input. `None` is the input that the job file holds, or else an empty one.
    pub input: Option<String>,
    /// The maximum width of the chart, in columns of text, from `LEAST_WIDTH` to `MAX_WIDTH`. `None` is the
    /// default.
    pub width: Option<usize>,
    /// Whether the output is an SVG document instead of a text.
    pub svg: bool,
    /// The number of workers, and the last tick of the chart.
    pub settings: Settings,
}

/// The arguments of `page`.
#[derive(Drop)]
pub struct PageArgs {
    /// The job file, or `-` for standard input.
    pub job: String,
    /// The input file, or `-` for standard input. `None` is the input that the job file holds, or else an empty one.
    pub input: Option<String>,
    /// The number of workers, and the last tick of the chart and the story.
    pub settings: Settings,
}

/// The arguments of `faults`.
#[derive(Drop)]
pub struct FaultsArgs {
    /// The job file, or `-` for standard input.
    pub job: String,
    /// The input file, or `-` for standard input. `None` is the input that the job file holds, or else an empty one.
    pub input: Option<String>,
    /// Which faults are tried, which lines are printed, and which outcomes are denied. A step may raise each of the names.
    pub options: Options,
    /// The number of threads, and the last tick at which a job may end.
    pub settings: Settings,
    /// Whether the output is one JSON document.
    pub json: bool,
}

/// The arguments of `races`.
#[derive(Drop)]
pub struct RacesArgs {
    /// The job file, or `-` for standard input.
    pub job: String,
    /// The input file, or `-` for standard input. `None` is the input that the job file holds, or else an empty one.
    pub input: Option<String>,
    /// Whether races are denied.
    pub deny: bool,
    /// The number of threads, and the last tick at which a job may end.
    pub settings: Settings,
    /// Whether the output is one JSON document.
    pub json: bool,
}

/// The arguments of `sweep`.
#[derive(Drop)]
pub struct SweepArgs {
    /// The job file, or `-` for standard input.
    pub job: String,
    /// The input file, or `-` for standard input. `None` is the input that the job file holds, or else an empty one.
    pub input: Option<String>,
    /// The number that takes the values.
    pub target: Target,
    /// The values, 1 to 100,000 of them, in increasing order.
    pub values: Vec<u64>,
    /// The number of threads, and the last tick at which a job may end.
    pub settings: Settings,
    /// Whether the output is one JSON document.
    pub json: bool,
}
