use bench_top::write_all;
use mcal_base::Sink;
use std::alloc::Global;
use sweep_trials::Progress;

/// After how many places a line tells how far a sweep has come.
const OFTEN: usize = 1000;

/// Lines that tell how far a sweep has come. Where one can't be written the sweep goes on.
#[derive(Drop)]
pub struct ProgressLines<K> {
    alloc: Global,
    out: K,
}

impl<K: Sink> ProgressLines<K> {
    /// Lines that are written to a sink.
    pub fn new(alloc: Global, out: K) -> ProgressLines<K> {
        ProgressLines { alloc, out }
    }
}

impl<K: Sink> Progress for ProgressLines<K> {
    fn tried(&mut self, places: usize, all: usize) {
        if places % OFTEN != 0 {
            return;
        }
        if let Ok(text) = format!(in self.alloc; "tried {places} of {all} places\n") {
            let _ = write_all(&mut self.out, text.as_bytes());
        }
    }
}
