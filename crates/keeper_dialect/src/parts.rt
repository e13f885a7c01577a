// The parts of lists: what stands between commas.
ghost use Rattle.std.specs.Prelude.{◌≡◌, ◌∷◌, ◌++◌, [], ℕ, List as Seq, Bool, Ok, IfOk, IfErr};
ghost use Rattle.keeper_dialect.specs.Tokens.{Token as Seen};
ghost use Rattle.keeper_dialect.specs.Reading.{Reading, StopsAs, Shrinks, bracketed_at, separated};
ghost use Rattle.keeper_dialect.specs.Taken.{is_taken};

use crate::query::DialectFail;
use crate::reader::Reader;
use crate::taken::Taken;
use hrana_value::List;
use std::alloc::Global;

/// A part of a list. It may depend on those before it, and on the names that they take.
pub(crate) trait Part: Drop {
    ghost read_at: { Seq Self → Seq Seen → Reading Self };

    ghost is_taken_by: { Seq Self → Seq ℕ → Bool };

    fn read(
        reader: &mut Reader<'_>,
        alloc: Global,
        taken: &mut Taken,
        done: &[Self],
    ) -> Result<Self, DialectFail>
        requires { (name : Seq ℕ) → is_taken taken.old name ≡ is_taken_by done.now name }
        ensures read { IfOk result (λ x. read_at done.now reader.old ≡ Ok (x, reader.new)) }
        ensures stops { IfErr result (StopsAs (read_at done.now reader.old)) }
        ensures takes { IfOk result (λ x. (name : Seq ℕ) → is_taken taken.new name ≡ is_taken_by (done.now ++ x ∷ []) name) };
}

impl<'a> Reader<'a> {
    /// A part, and more of them behind commas.
    pub(crate) fn separated<T: Part>(&mut self, alloc: Global) -> Result<List<T>, DialectFail>
        requires { Shrinks T.read_at T.is_taken_by }
        ensures read { IfOk result (λ xs. separated T.read_at self.old ≡ Ok (xs, self.new)) }
        ensures stops { IfErr result (StopsAs (separated T.read_at self.old)) }
    {
        let mut parts = List::new(alloc);
        let mut taken = Taken::new(alloc);
        'parts: loop {
            let part = T::read(self, alloc, &mut taken, parts.as_slice())?;
            parts.push(part)?;
            if !self.takes(b',') {
                return Ok(parts);
            }
        }
    }

    /// Such a list in brackets.
    #[tactic(auto, unfolding(crate::specs::Reading::and_then))]
    pub(crate) fn bracketed<T: Part>(&mut self, alloc: Global) -> Result<List<T>, DialectFail>
        requires { Shrinks T.read_at T.is_taken_by }
        ensures read { IfOk result (λ xs. bracketed_at (separated T.read_at) self.old ≡ Ok (xs, self.new)) }
        ensures stops { IfErr result (StopsAs (bracketed_at (separated T.read_at) self.old)) }
    {
        self.sign(b'(')?;
        let parts = self.separated(alloc)?;
        self.sign(b')')?;
        Ok(parts)
    }
}
