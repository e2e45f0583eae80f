//! Laws of the definitions of this crate.
ghost use Rattle.t1_strand_order.specs.Laws.{EventsKeepOrder, HistoriesKeepOrder, StoresKeepOrder, SentStoresKeepOrder, EventsKeepPlaces, HistoriesAre};

/// Each event that a strand allows keeps its order: each read has a place that was done by the
/// strand's time, the stores without one are those of its buffer, at most eight were held at each
/// read, and what an access waits for was done when it was performed or sent.
pub fn events_keep_order()
    ensures { EventsKeepOrder }
{}

/// Each history of allowed events keeps it.
pub fn histories_keep_order()
    ensures { HistoriesKeepOrder }
{}

/// Where the stores of a strand that are out go to one destination, a store that has a place has a
/// higher index than each earlier store of the strand, and was sent when each earlier one to another
/// destination was done.
pub fn stores_keep_order()
    ensures { StoresKeepOrder }
{}

/// There, a store that is out was sent when each earlier store to another destination was done.
pub fn sent_stores_keep_order()
    ensures { SentStoresKeepOrder }
{}

/// Accesses that are placed rightly by the table of places stay so as the strand goes on.
pub fn events_keep_places()
    ensures { EventsKeepPlaces }
{}

/// There are histories of allowed events: one with a store and a fetch, and one in which two stores to
/// one line are out at once.
pub fn histories_are()
    ensures { HistoriesAre }
{}
