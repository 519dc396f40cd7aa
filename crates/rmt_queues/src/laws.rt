//! What holds of queues for every list of offers and takes.

ghost use Rattle.rmt_queues.specs.Laws.{EmptyQueuesFreeAll, NothingIsLost};

/// What a port gave, followed by what it holds, are the copies that were queued for it, each once, in the order of the
/// offers. The calls may be any.
pub fn nothing_is_lost()
    ensures { NothingIsLost }
{}

/// When all queues are empty, all cells are free. The calls before may be any.
pub fn empty_queues_free_all()
    ensures { EmptyQueuesFreeAll }
{}
