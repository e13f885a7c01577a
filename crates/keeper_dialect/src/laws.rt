// Laws over all texts.
ghost use Rattle.keeper_dialect.specs.Grammar.{NoTextIsTwoQueries, QueriesAreRead};
ghost use Rattle.keeper_dialect.specs.Reads.{EachReadIsASelect};
ghost use Rattle.keeper_dialect.specs.Stops.{NoQueryStops, NoTextStopsAtTwoPlaces};

/// No text is two queries.
pub fn no_text_is_two_queries()
    ensures { NoTextIsTwoQueries }
{}

/// A text is read as the query that the grammar gives it, exactly where it gives one.
pub fn queries_are_read()
    ensures { QueriesAreRead }
{}

/// No text stops at two places.
pub fn no_text_stops_at_two_places()
    ensures { NoTextStopsAtTwoPlaces }
{}

/// No text that is a query stops.
pub fn no_query_stops()
    ensures { NoQueryStops }
{}

/// A text whose class is `Read` is a select, where it is a query at all.
pub fn each_read_is_a_select()
    ensures { EachReadIsASelect }
{}
