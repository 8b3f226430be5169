//! What is told of figures.
ghost use Rattle.std.specs.Prelude.{◌≡◌};
ghost use Rattle.prometheus_text.specs.MetricText.{word_of};

/// How a figure goes on.
#[derive(Clone, Copy, Debug, PartialEq, Eq)]
pub enum MetricKind {
    /// It only rises while a program runs.
    Counter,
    /// It rises and falls.
    Gauge,
}

impl MetricKind {
    /// Its word.
    pub fn word(self) -> &'static str
        ensures { result.now ≡ word_of self }
    {
        match self {
            MetricKind::Counter => "counter",
            MetricKind::Gauge => "gauge",
        }
    }
}

/// What tells a sample of a metric from its others.
#[derive(Clone, Copy)]
pub struct Label<'a> {
    pub name: &'a str,
    pub value: &'a str,
}

/// A figure of a metric.
#[derive(Clone, Copy)]
pub struct Sample<'a> {
    pub labels: &'a [Label<'a>],
    pub value: u64,
}

/// A metric, with its figures.
#[derive(Clone, Copy)]
pub struct Metric<'a> {
    pub name: &'a str,
    pub help: &'a str,
    pub kind: MetricKind,
    pub samples: &'a [Sample<'a>],
}
