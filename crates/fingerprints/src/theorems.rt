// What is said of bytes is what is said of the places that hold them.
ghost use Rattle.fingerprints.specs.Bytes.{LeavesOverBytes};
ghost use Rattle.fingerprints.specs.Views.{MergeKeysViewed, NullsViewed};

/// What a scalar counts as by its bytes is what it counts as by its places in the text.
pub fn leaves_over_bytes()
    ensures { LeavesOverBytes }
{}

/// An event as it is seen is a merge key exactly where its record is.
pub fn merge_keys_viewed()
    ensures { MergeKeysViewed }
{}

/// An event as it is seen is a null exactly where its record is.
pub fn nulls_viewed()
    ensures { NullsViewed }
{}
