//! The benchmarks.

/// What is timed.
#[derive(Clone, Copy, Debug, PartialEq, Eq)]
pub enum Benchmark {
    Codec,
    Flusher,
    Keeper,
    Links,
    Measure,
    Open,
    Plant,
    Rings,
    Segment,
    Threads,
}

impl Benchmark {
    /// The benchmark of a name.
    pub fn of(name: &str) -> Option<Self> {
        Some(match name {
            "codec" => Benchmark::Codec,
            "flusher" => Benchmark::Flusher,
            "keeper" => Benchmark::Keeper,
            "links" => Benchmark::Links,
            "measure" => Benchmark::Measure,
            "open" => Benchmark::Open,
            "plant" => Benchmark::Plant,
            "rings" => Benchmark::Rings,
            "segment" => Benchmark::Segment,
            "threads" => Benchmark::Threads,
            _ => return None,
        })
    }
}
