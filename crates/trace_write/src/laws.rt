ghost use Rattle.trace_write.specs.Laws.{SavedAccepted, SavedAgain, BroughtBack};

/// What is saved is accepted, and means the records saved.
pub fn saved_accepted()
    ensures { SavedAccepted }
{}

/// An accepted file that is taken into an empty pool and an empty book that are large enough, and then saved, gives
/// its own bytes.
pub fn saved_again()
    ensures { SavedAgain }
{}

/// The contents and records of what is saved, taken into an empty pool and an empty book that are large enough, are
/// the records that were saved, content for content, as hints.
pub fn brought_back()
    ensures { BroughtBack }
{}
