use crate::places::lines::Span;
use std::alloc::AllocError;

/// Where a key or an item of a configuration stands.
#[derive(Drop)]
pub struct Placed {
    /// The keys, and the numbers of items from 0, that lead there, joined by points, as `Spi.SpiJob.0.SpiChannelList.1`.
    pub path: String,
    /// Its key; of an item, the item.
    pub key: Span,
    /// Its value; of a table, its header.
    pub value: Span,
}

/// The places of a configuration, to be looked up.
#[derive(Drop)]
pub struct Places {
    /// In the order of their paths.
    placed: Vec<Placed>,
}

impl Places {
    /// Makes them to be looked up.
    pub fn of(mut placed: Vec<Placed>) -> Result<Places, AllocError> {
        placed.sort_by(|one, other| one.path.as_str().cmp(other.path.as_str()))?;
        Ok(Places { placed })
    }

    /// The place that a path leads to.
    pub fn at(&self, path: &str) -> Option<&Placed> {
        match self
            .placed
            .binary_search_by(|placed| placed.path.as_str().cmp(path))
        {
            Ok(number) => self.placed.get(number),
            Err(_) => None,
        }
    }

    /// The place that a path leads to, or else that of the table or array nearest around it.
    pub fn near(&self, path: &str) -> Option<&Placed> {
        let mut path = path;
        for _ in 0..5 {
            if let Some(placed) = self.at(path) {
                return Some(placed);
            }
            path = match path.rsplit_once('.') {
                Some((front, _)) => front,
                None => return None,
            };
        }
        None
    }
}
