ghost use Rattle.trace.specs.Laws.{WrittenBack, OnlyLawful, ReadBack};

/// An accepted file is what its trace is written as.
pub fn written_back()
    ensures { WrittenBack }
{}

/// An accepted file holds a lawful trace.
pub fn only_lawful()
    ensures { OnlyLawful }
{}

/// Each lawful trace is read back.
pub fn read_back()
    ensures { ReadBack }
{}
