//! The law of files that are saved.
ghost use Rattle.t1_elf.specs.Laws.{SavedIsRead};

/// The file of an object is read back, under each limit that the object keeps to.
pub fn saved_is_read()
    ensures { SavedIsRead }
{}
