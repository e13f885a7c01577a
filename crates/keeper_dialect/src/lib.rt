//! The dialect of SQL that the keeper in memory understands, and the parser of its queries.
//!
//! ```text
//! query   = create | insert | select | update | delete
//! create  = CREATE TABLE name ( coldef { , coldef } )
//! coldef  = name [ word ] [ PRIMARY KEY ]
//! insert  = INSERT INTO name [ ( name { , name } ) ] VALUES tuple { , tuple }
//! tuple   = ( expr { , expr } )
//! select  = SELECT expr { , expr } [ FROM name [ where ] ]
//!         | SELECT * FROM name [ where ]
//!         | SELECT COUNT ( * ) FROM name [ where ]
//! update  = UPDATE name SET name = expr { , name = expr } [ where ]
//! delete  = DELETE FROM name [ where ]
//! where   = WHERE name = expr
//! expr    = term { + term | - term }
//! term    = [ - ] number | text | blob | NULL | parameter | name
//! ```
#![tactic(auto)]

mod exprs;
mod laws;
mod limits;
mod lists;
mod names;
mod parser;
mod parts;
mod query;
mod reader;
mod statements;
mod taken;
mod terms;
mod tokens;

pub use laws::{
    each_read_is_a_select, no_query_stops, no_text_is_two_queries, no_text_stops_at_two_places,
    queries_are_read,
};
pub use limits::{MAX_COLUMNS, limits_are};
pub use names::is_same_name;
pub use parser::parse;
pub use query::{
    Add, Adds, ColDef, ColDefs, ColExpr, ColExprs, DialectFail, Expr, Exprs, Item, Items, NameList,
    Query, Shown, Term, Tuples,
};
