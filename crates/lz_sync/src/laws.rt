ghost use Rattle.lz_sync.specs.Doing.{GroupsDo};
ghost use Rattle.lz_sync.specs.Standing.{OnePair};
ghost use Rattle.lz_sync.specs.Reaching.{MemoryForEach};

/// The group of every operation is blocked, breaks or goes as its action does; where it goes, the memory then stands
/// for the new state.
pub fn groups_do()
    ensures { GroupsDo }
{}

/// No memory stands for two pairs of a state and a list of made slots.
pub fn one_pair()
    ensures { OnePair }
{}

/// Each state of the layout that actions reach has a memory that stands for it, with any rising list of as many slots
/// as it made.
pub fn memory_for_each()
    ensures { MemoryForEach }
{}
