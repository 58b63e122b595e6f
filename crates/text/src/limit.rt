// The most bytes that a chart may have.
pub const CHART_LIMIT: usize = 8192;
