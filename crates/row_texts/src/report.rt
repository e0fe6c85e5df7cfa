//! What came of the rows.

use shared_types::Memory;
use std::alloc::Global;

/// How many runs were tried, and how many ended as their rows say.
#[derive(Drop)]
pub struct Report {
    tried: u64,
    passed: u64,
}

impl Report {
    pub fn new() -> Report {
        Report {
            tried: 0,
            passed: 0,
        }
    }

    /// Counts a run.
    pub fn count(&mut self, has_passed: bool) {
        self.tried = self.tried.saturating_add(1);
        if has_passed {
            self.passed = self.passed.saturating_add(1);
        }
    }

    /// Whether a run ended otherwise.
    pub fn has_failed(&self) -> bool {
        self.passed != self.tried
    }

    /// How many runs ended as they must, as a line with a name at its front.
    pub fn line(&self, alloc: Global, name: &str) -> Result<String, Memory> {
        format!(in alloc; "{name}: {} of {} rows pass\n", self.passed, self.tried)
    }

    /// Counts the runs of another report.
    pub fn add(&mut self, other: &Report) {
        self.tried = self.tried.saturating_add(other.tried);
        self.passed = self.passed.saturating_add(other.passed);
    }
}
