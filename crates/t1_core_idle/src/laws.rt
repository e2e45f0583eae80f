//! Laws of the histories of a core, of what it does next.
ghost use Rattle.t1_core_idle.specs.Laws.{RequestsGoOut, WordsCanHaveAllRoom, WaitingStrandsHaveEnded, UndrainedBuffersAreEmpty, FinishedCoresHaveEnded, FinishedTracesHaveEndings};

/// What an exec, a turn or a drain sends goes to a destination below 5 whose bit in `room` is set,
/// and is a request of this core that the destination may serve.
pub fn requests_go_out()
    ensures { RequestsGoOut }
{}

/// In the word 511 each destination has room.
pub fn words_can_have_all_room()
    ensures { WordsCanHaveAllRoom }
{}

/// Where all rings have room and no strand acts at a turn, each strand that awaits no reply, and
/// whose buffer is empty, has ended.
pub fn waiting_strands_have_ended()
    ensures { WaitingStrandsHaveEnded }
{}

/// Where all rings have room and a drain sends nothing, a buffer of which no store is sent is empty.
pub fn undrained_buffers_are_empty()
    ensures { UndrainedBuffersAreEmpty }
{}

/// A core is finished exactly where each of its strands has ended, with an empty buffer.
pub fn finished_cores_have_ended()
    ensures { FinishedCoresHaveEnded }
{}

/// Each trace of a finished core has an ending.
pub fn finished_traces_have_endings()
    ensures { FinishedTracesHaveEndings }
{}
