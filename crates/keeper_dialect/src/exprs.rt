// Expressions, and columns with expressions.
ghost use Rattle.std.specs.Prelude.{◌≡◌, drop, is_some, if◌then◌else◌, IfOk, IfErr};
ghost use Rattle.keeper_dialect.specs.Reading.{symbol_at, StopsAs};
ghost use Rattle.keeper_dialect.specs.Terms.{add_at, adds_at, expr_at, col_expr_at, operator_of};

use crate::query::{Add, Adds, ColExpr, DialectFail, Expr};
use crate::reader::Reader;
use std::alloc::Global;

impl<'a> Reader<'a> {
    /// Passes `+` or `-`, if one stands, and says whether it is `-`.
    fn operator(&mut self) -> Option<bool>
        ensures operator { result ≡ operator_of (symbol_at self.old) }
        ensures left { self.new ≡ (if is_some result then drop 1 self.old else self.old) }
    {
        if self.takes(b'+') {
            return Some(false);
        }
        if self.takes(b'-') {
            return Some(true);
        }
        None
    }

    /// The terms that are added or taken away.
    #[tactic(auto, unfolding(crate::specs::Terms::adds_at))]
    fn adds(&mut self, alloc: Global) -> Result<Adds, DialectFail>
        ensures read { IfOk result (λ x. adds_at self.old ≡ Ok (x, self.new)) }
        ensures stops { IfErr result (StopsAs (adds_at self.old)) }
    {
        let mut adds = Adds::new(alloc);
        while let Some(minus) = self.operator() {
            let term = self.term(alloc)?;
            adds.push(Add { minus, term })?;
        }
        Ok(adds)
    }

    #[tactic(auto, unfolding(crate::specs::Terms::expr_at, crate::specs::Reading::and_then))]
    pub(crate) fn expr(&mut self, alloc: Global) -> Result<Expr, DialectFail>
        ensures read { IfOk result (λ x. expr_at self.old ≡ Ok (x, self.new)) }
        ensures stops { IfErr result (StopsAs (expr_at self.old)) }
    {
        let first = self.term(alloc)?;
        let rest = self.adds(alloc)?;
        Ok(Expr { first, rest })
    }

    /// A name, `=` and an expression.
    #[tactic(auto, unfolding(crate::specs::Terms::col_expr_at, crate::specs::Reading::and_then))]
    pub(crate) fn col_expr(&mut self, alloc: Global) -> Result<ColExpr, DialectFail>
        ensures read { IfOk result (λ x. col_expr_at self.old ≡ Ok (x, self.new)) }
        ensures stops { IfErr result (StopsAs (col_expr_at self.old)) }
    {
        let column = self.name(alloc)?;
        self.sign(b'=')?;
        let expr = self.expr(alloc)?;
        Ok(ColExpr { column, expr })
    }
}
