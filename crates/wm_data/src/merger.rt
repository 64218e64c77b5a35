//! The two ways in which inputs become one.

/// How the inputs of a work become one, after WorkManager's `InputMerger`s.
#[derive(Clone, Copy, Debug, PartialEq, Eq)]
pub enum Merger {
    /// A later value of a key replaces an earlier one.
    Overwriting,
    /// Each key gets the array of all its values.
    ArrayCreating,
}
