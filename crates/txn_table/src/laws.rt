// Laws over every list of calls. Each is a function with an empty body, whose contract is the law.
ghost use Rattle.txn_table.specs.Laws.{OneHolder, GrantsExact, VersionsExact, WaitersOrderly};

/// At most one stream holds the turn.
pub fn at_most_one_stream_holds_the_turn()
    ensures { OneHolder }
{}

/// Each grant is the one that the rules give by the calls before.
pub fn each_grant_is_by_the_rules()
    ensures { GrantsExact }
{}

/// The version counts the commits, and whoever holds the turn got it at the version that is now: so each version is that of
/// one commit, whose stream got the turn at the version before.
pub fn each_version_is_of_one_commit()
    ensures { VersionsExact }
{}

/// No stream waits twice, and none that holds the turn waits. Whoever waits or holds the turn has a place.
pub fn each_waiter_waits_once()
    ensures { WaitersOrderly }
{}
