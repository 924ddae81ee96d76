//! What a report is to have.

/// Which sets a report lists.
#[derive(Clone, Copy, Debug, PartialEq, Eq)]
pub enum Listing {
    /// Those whose digits are planned otherwise.
    Changed,
    /// All: those that stay too, each of which is marked as such.
    All,
}

/// How a report is written.
#[derive(Clone, Copy, Debug, PartialEq, Eq)]
pub enum Form {
    /// In lines, to be read; the last ones have the default technologies, if they differ, and how
    /// many sets have changed.
    Lines,
    /// In rows of comma-separated fields: a header, and a row for each set.
    Rows,
}
