ghost use Rattle.lz_split.specs.DeedsDo.{DeedsDo};

/// The instructions of a deed are blocked, break or go as its action does; where it goes, the memory then stands for
/// the new state, and what the deed leaves stands in the thread's own words.
pub fn deeds_do()
    ensures { DeedsDo }
{}
