use base_vectors::Id;

/// Whether a group of records is to be taken.
#[derive(Clone, Copy, Debug, PartialEq, Eq)]
pub enum Judgement {
    /// Some of its records are new, and none that it needs is missing.
    Take,
    /// All its records are known.
    Already,
    /// A record of this identity is missing.
    Gap(Id),
}

/// What became of the first step of a prune.
#[derive(Clone, Copy, Debug, PartialEq, Eq)]
pub enum Init {
    /// The mark was made.
    Marked,
    /// The mark of this view stands.
    Standing,
    /// The mark is of a greater view.
    Newer,
    /// The removed identity has no record that is not pruned.
    NothingKnown,
}

/// What became of a prune.
#[derive(Clone, Copy, Debug, PartialEq, Eq)]
pub enum Perform {
    /// The prune is the owner's new record.
    Performed,
    /// The first member that has not seen the mark.
    Waiting(Id),
    /// The two shares add to more than one identity may hold.
    Blocked {
        owner_share: u64,
        removed_share: u64,
    },
    /// No mark of this view was begun.
    NothingMarked,
}
