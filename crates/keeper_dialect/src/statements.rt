// Statements.
ghost use Rattle.std.specs.Prelude.{◌≡◌, true, false, drop, IfOk, IfErr};
ghost use Rattle.keeper_dialect.specs.declared.query.Shown.{Shown};
ghost use Rattle.keeper_dialect.specs.Reading.{and_then, place_at, symbol_at, StopsAs};
ghost use Rattle.keeper_dialect.specs.Query.{filter_at, create_at, some_names_at, insert_at, from_at, count_at, list_at, select_at, update_at, delete_at, statement_by, statement_of, statement_at, is_end, whole_at};

use crate::lists::source_text;
use crate::query::{ColExpr, DialectFail, NameList, Query, Shown};
use crate::reader::Reader;
use crate::tokens::{Keyword, Symbol};
use std::alloc::Global;

fn is_end(symbol: Symbol) -> bool
    ensures { result ≡ is_end symbol }
{
    match symbol {
        Symbol::End => true,
        _ => false,
    }
}

impl<'a> Reader<'a> {
    /// `WHERE` and its comparison, if it stands.
    #[tactic(auto, unfolding(crate::specs::Query::filter_at, crate::specs::Reading::and_then))]
    fn filter(&mut self, alloc: Global) -> Result<Option<ColExpr>, DialectFail>
        ensures read { IfOk result (λ x. filter_at self.old ≡ Ok (x, self.new)) }
        ensures stops { IfErr result (StopsAs (filter_at self.old)) }
    {
        if !self.takes_keyword(Keyword::Where) {
            return Ok(None);
        }
        let filter = self.col_expr(alloc)?;
        Ok(Some(filter))
    }

    /// What follows `CREATE`.
    #[tactic(auto, using(crate::proofs::PartLemmas::cols_shrink), unfolding(crate::specs::Query::create_at, crate::specs::Lists::cols_at, crate::specs::Lists::col_defs_at, crate::specs::Reading::and_then))]
    fn create(&mut self, alloc: Global) -> Result<Query, DialectFail>
        ensures read { IfOk result (λ x. create_at self.old ≡ Ok (x, self.new)) }
        ensures stops { IfErr result (StopsAs (create_at self.old)) }
    {
        self.keyword(Keyword::Table)?;
        let table = self.name(alloc)?;
        let cols = self.bracketed(alloc)?;
        Ok(Query::Create { table, cols })
    }

    /// The names of an insert's columns, if they stand.
    #[tactic(auto, using(crate::proofs::PartLemmas::names_shrink), unfolding(crate::specs::Query::some_names_at, crate::specs::Lists::name_list_at, crate::specs::Lists::names_at, crate::specs::Reading::and_then))]
    fn some_names(&mut self, alloc: Global) -> Result<Option<NameList>, DialectFail>
        ensures read { IfOk result (λ x. some_names_at self.old ≡ Ok (x, self.new)) }
        ensures stops { IfErr result (StopsAs (some_names_at self.old)) }
    {
        if !self.is_sign(b'(') {
            return Ok(None);
        }
        let names = self.bracketed(alloc)?;
        Ok(Some(names))
    }

    /// What follows `INSERT`.
    #[tactic(auto, using(crate::proofs::PartLemmas::tuples_shrink), unfolding(crate::specs::Query::insert_at, crate::specs::Lists::tuples_at, crate::specs::Reading::and_then))]
    fn insert(&mut self, alloc: Global) -> Result<Query, DialectFail>
        ensures read { IfOk result (λ x. insert_at self.old ≡ Ok (x, self.new)) }
        ensures stops { IfErr result (StopsAs (insert_at self.old)) }
    {
        self.keyword(Keyword::Into)?;
        let table = self.name(alloc)?;
        let names = self.some_names(alloc)?;
        self.keyword(Keyword::Values)?;
        let tuples = self.separated(alloc)?;
        Ok(Query::Insert {
            table,
            names,
            tuples,
        })
    }

    /// The table of a select and its filter, from `FROM` on.
    #[tactic(auto, unfolding(crate::specs::Query::from_at, crate::specs::Reading::and_then))]
    fn from(&mut self, alloc: Global, shown: Shown) -> Result<Query, DialectFail>
        ensures read { IfOk result (λ x. from_at shown self.old ≡ Ok (x, self.new)) }
        ensures stops { IfErr result (StopsAs (from_at shown self.old)) }
    {
        self.keyword(Keyword::From)?;
        let table = self.name(alloc)?;
        let filter = self.filter(alloc)?;
        Ok(Query::Select {
            shown,
            table: Some(table),
            filter,
        })
    }

    /// `COUNT(*)`, with its source text.
    #[tactic(auto, unfolding(crate::specs::Query::count_at, crate::specs::Reading::and_then))]
    fn count(&mut self, alloc: Global) -> Result<Shown, DialectFail>
        ensures read { IfOk result (λ x. count_at self.old ≡ Ok (x, self.new)) }
        ensures stops { IfErr result (StopsAs (count_at self.old)) }
    {
        let start = self.rest();
        self.keyword(Keyword::Count)?;
        self.sign(b'(')?;
        self.sign(b'*')?;
        self.sign(b')')?;
        let text = source_text(alloc, self.behind(start))?;
        Ok(Shown::Count { text })
    }

    /// A list of what is shown, and `FROM` if it stands.
    #[tactic(auto, using(crate::proofs::PartLemmas::items_shrink), unfolding(crate::specs::Query::list_at, crate::specs::Lists::items_at, crate::specs::Reading::and_then))]
    fn list(&mut self, alloc: Global) -> Result<Query, DialectFail>
        ensures read { IfOk result (λ x. list_at self.old ≡ Ok (x, self.new)) }
        ensures stops { IfErr result (StopsAs (list_at self.old)) }
    {
        let items = self.separated(alloc)?;
        if self.is_keyword(Keyword::From) {
            return self.from(alloc, Shown::List(items));
        }
        Ok(Query::Select {
            shown: Shown::List(items),
            table: None,
            filter: None,
        })
    }

    /// What follows `SELECT`.
    #[tactic(auto, unfolding(crate::specs::Query::select_at, crate::specs::Reading::and_then))]
    fn select(&mut self, alloc: Global) -> Result<Query, DialectFail>
        ensures read { IfOk result (λ x. select_at self.old ≡ Ok (x, self.new)) }
        ensures stops { IfErr result (StopsAs (select_at self.old)) }
    {
        if self.takes(b'*') {
            return self.from(alloc, Shown::All);
        }
        if self.is_keyword(Keyword::Count) {
            let count = self.count(alloc)?;
            return self.from(alloc, count);
        }
        self.list(alloc)
    }

    /// What follows `UPDATE`.
    #[tactic(auto, using(crate::proofs::PartLemmas::sets_shrink), unfolding(crate::specs::Query::update_at, crate::specs::Lists::sets_at, crate::specs::Reading::and_then))]
    fn update(&mut self, alloc: Global) -> Result<Query, DialectFail>
        ensures read { IfOk result (λ x. update_at self.old ≡ Ok (x, self.new)) }
        ensures stops { IfErr result (StopsAs (update_at self.old)) }
    {
        let table = self.name(alloc)?;
        self.keyword(Keyword::Set)?;
        let sets = self.separated(alloc)?;
        let filter = self.filter(alloc)?;
        Ok(Query::Update {
            table,
            sets,
            filter,
        })
    }

    /// What follows `DELETE`.
    #[tactic(auto, unfolding(crate::specs::Query::delete_at, crate::specs::Reading::and_then))]
    fn delete(&mut self, alloc: Global) -> Result<Query, DialectFail>
        ensures read { IfOk result (λ x. delete_at self.old ≡ Ok (x, self.new)) }
        ensures stops { IfErr result (StopsAs (delete_at self.old)) }
    {
        self.keyword(Keyword::From)?;
        let table = self.name(alloc)?;
        let filter = self.filter(alloc)?;
        Ok(Query::Delete { table, filter })
    }

    /// What follows the first word of a statement, which is passed.
    fn statement_by(&mut self, alloc: Global, keyword: Keyword) -> Result<Query, DialectFail>
        ensures read { IfOk result (λ x. statement_by keyword self.old ≡ Ok (x, self.new)) }
        ensures stops { IfErr result (StopsAs (statement_by keyword self.old)) }
    {
        let stop = self.stop();
        self.step();
        match keyword {
            Keyword::Create => self.create(alloc),
            Keyword::Insert => self.insert(alloc),
            Keyword::Select => self.select(alloc),
            Keyword::Update => self.update(alloc),
            Keyword::Delete => self.delete(alloc),
            _ => Err(stop),
        }
    }

    #[tactic(auto, unfolding(crate::specs::Query::statement_at))]
    fn statement(&mut self, alloc: Global) -> Result<Query, DialectFail>
        ensures read { IfOk result (λ x. statement_at self.old ≡ Ok (x, self.new)) }
        ensures stops { IfErr result (StopsAs (statement_at self.old)) }
    {
        match self.symbol() {
            Symbol::Keyword(keyword) => self.statement_by(alloc, keyword),
            _ => Err(self.stop()),
        }
    }

    /// What was read, if the text ends behind it.
    fn ended<T: Drop>(&self, read: T) -> Result<T, DialectFail>
        ensures read { IfOk result (λ x. (x ≡ read) × (is_end (symbol_at self.now) ≡ true)) }
        ensures stops { IfErr result (λ e. (e ≡ DialectFail.Syntax (place_at self.now)) × (is_end (symbol_at self.now) ≡ false)) }
    {
        if !is_end(self.symbol()) {
            return Err(self.stop());
        }
        Ok(read)
    }

    /// A statement behind which the text ends.
    #[tactic(auto, unfolding(crate::specs::Query::whole_at, crate::specs::Reading::and_then))]
    pub(crate) fn whole(&mut self, alloc: Global) -> Result<Query, DialectFail>
        ensures read { IfOk result (λ x. whole_at self.old ≡ Ok (x, self.new)) }
        ensures stops { IfErr result (StopsAs (whole_at self.old)) }
    {
        let query = self.statement(alloc)?;
        self.ended(query)
    }
}
