// A text as a query.
ghost use Rattle.std.specs.Prelude.{IfOk, IfErr};
ghost use Rattle.keeper_dialect.specs.Grammar.{IsQueryOf, RefusesRightly};
ghost use Rattle.keeper_dialect.specs.Query.{query_of, AnswersAs};
ghost use Rattle.keeper_dialect.specs.Stops.{StopsRightly};

use crate::query::{DialectFail, Query};
use crate::reader::Reader;
use crate::tokens::tokens_of;
use std::alloc::Global;

/// What the tokens of a text say that it is.
#[tactic(auto, unfolding(crate::specs::Query::query_of))]
fn read(alloc: Global, sql: &str) -> Result<Query, DialectFail>
    ensures { AnswersAs result (query_of sql.now) }
{
    let tokens = tokens_of(alloc, sql)?;
    Reader::new(tokens.as_slice()).whole(alloc)
}

/// The query that a text is. The text is one statement, without a `;`.
pub fn parse(alloc: Global, sql: &str) -> Result<Query, DialectFail>
    ensures exact { AnswersAs result (query_of sql.now) }
    ensures reads { IfOk result (λ q. IsQueryOf q sql.now) }
    ensures refuses { IfErr result (RefusesRightly sql.now) }
    ensures stops { IfErr result (StopsRightly sql.now) }
{
    read(alloc, sql)
}
