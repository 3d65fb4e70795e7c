//! Lines to feed.
use cl_types::{GrowingList, Text};

/// The texts of lines, first to last.
pub type LineList = GrowingList<Text>;
