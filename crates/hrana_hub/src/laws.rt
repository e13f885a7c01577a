// Laws over runs of the hub. Each is a function whose contract is the law.
ghost use Rattle.hrana_hub.specs.Batons.{AnsweredOnce, DeadBatonsChangeNothing, NoBatonTwice, NoTokensByFailures};
ghost use Rattle.hrana_hub.specs.Laws.{DeadAddNothing, InEveryRun, LimitsHold, WaitsAreCounted};
ghost use Rattle.hrana_hub.specs.Stories.{RepliesInOrder};
ghost use Rattle.hrana_hub.specs.Talks.{AnswersInOrder};
ghost use Rattle.hrana_hub.specs.Versions.{RunsHaveVersions};

use pipeline_body::{
    asks_of_bodies_fit, each_request_has_its_result, no_bytes_have_two_body_readings,
};
use stream_task::{
    begun_units_are_next, replies_stand_in_order, shut_streams_add_nothing,
    streams_are_closed_by_closes,
};

/// No limit is passed in any run.
pub fn limits_hold()
    ensures { InEveryRun LimitsHold }
{}

/// In every run a connection counts its requests that wait.
pub fn waiting_requests_are_counted()
    ensures { InEveryRun WaitsAreCounted }
{
    streams_are_closed_by_closes();
}

/// What is dead or gone stays so, and adds no entry.
pub fn the_dead_add_nothing()
    ensures { DeadAddNothing }
{
    shut_streams_add_nothing();
}

/// In every run the replies of each stream of a connection are those of its requests, in their order.
pub fn replies_follow_requests()
    ensures { RepliesInOrder }
{
    replies_stand_in_order();
}

/// In every run each unit began at one version.
pub fn runs_have_versions()
    ensures { RunsHaveVersions }
{
    begun_units_are_next();
}

/// In every run the exchanges of each stream are answered in their order, each with the results of its requests.
pub fn exchanges_are_answered_in_order()
    ensures { AnswersInOrder }
{
    no_bytes_have_two_body_readings();
    replies_stand_in_order();
    each_request_has_its_result();
    asks_of_bodies_fit();
    streams_are_closed_by_closes();
}

/// In every run no exchange is answered twice.
pub fn exchanges_are_answered_once()
    ensures { AnsweredOnce }
{}

/// An exchange whose baton isn't live adds no entry, and leaves every stream and baton as it was.
pub fn dead_batons_change_nothing()
    ensures { DeadBatonsChangeNothing }
{
    no_bytes_have_two_body_readings();
}

/// Once an exchange that brings a baton was accepted, that baton is never live again.
pub fn no_baton_is_accepted_twice()
    ensures { NoBatonTwice }
{
    no_bytes_have_two_body_readings();
}

/// In every run no more answers say that no words could be drawn than draws failed.
pub fn refusals_for_words_have_failed_draws()
    ensures { NoTokensByFailures }
{}
