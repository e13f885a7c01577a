// The laws that join what polls do and what requests mean. Each is a function with an empty body.
ghost use Rattle.stream_task.specs.Laws.{PollMeans, AskMeans, TaskMeans, ShutAddsNothing, ClosesAlone, BegunAreNext, BatchesAreMeant, PollsReplyToPipelines};

/// A poll takes its entry from the front of what its request uses, and leaves the rest of what the request means.
pub fn each_poll_leaves_the_meaning()
    ensures { PollMeans }
{}

/// The reply to a request is what it means, by the entries that its polls added.
pub fn each_reply_is_meant()
    ensures { AskMeans }
{}

/// The replies of a stream stand in the order of its requests.
pub fn replies_stand_in_order()
    ensures { TaskMeans }
{}

/// A dead or closed stream stays so, and adds no entry.
pub fn shut_streams_add_nothing()
    ensures { ShutAddsNothing }
{}

/// A stream is closed by a close alone, and no poll puts a request behind one.
pub fn streams_are_closed_by_closes()
    ensures { ClosesAlone }
{}

/// A unit that a poll begins has the next number.
pub fn begun_units_are_next()
    ensures { BegunAreNext }
{}

/// The outcomes of a batch are those that the batch means.
pub fn batches_are_meant()
    ensures { BatchesAreMeant }
{}

/// Each reply that a poll gives is one to a request that a pipeline may ask.
pub fn polls_reply_to_pipelines()
    ensures { PollsReplyToPipelines }
{}
