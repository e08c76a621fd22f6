/// What is told how far a sweep has come.
pub trait Progress {
    /// So many places were tried, of so many in all.
    fn tried(&mut self, places: usize, all: usize);
}
