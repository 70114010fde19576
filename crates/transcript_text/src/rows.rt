//! The last fields of a line, all at once: one to five fields of any sorts, and as many of one sort as are left.

ghost use Rattle.std.specs.Prelude.{◌≡◌, List, [], ◌∷◌, map, IfOk, IfErr};
ghost use Rattle.transcript_text.specs.Grammar.{each};
ghost use Rattle.transcript_text.specs.Places.{IsFaultAt};
ghost use Rattle.transcript_text.specs.Ranges.{Every};

use crate::fault::LineFault;
use crate::field_reader::FieldReader;
use crate::spelling::Spelled;
use dc_base::Seq;
use std::alloc::Global;

impl<'a> FieldReader<'a> {
    /// The last field.
    pub fn one<A: Spelled + Drop>(&mut self, alloc: Global) -> Result<A, LineFault>
        ensures read { IfOk result (λ v. self.old.fields ≡ A.word v ∷ []) }
        ensures range { IfOk result (λ v. A.in_range v) }
        ensures fault { IfErr result (λ f. IsFaultAt (A.kind ∷ []) self.old f) }
    {
        let first: A = self.take(alloc)?;
        self.end()?;
        Ok(first)
    }

    /// The last two fields.
    pub fn two<A: Spelled + Drop, B: Spelled + Drop>(
        &mut self,
        alloc: Global,
    ) -> Result<(A, B), LineFault>
        ensures read { IfOk result (λ v. self.old.fields ≡ A.word v.0 ∷ B.word v.1 ∷ []) }
        ensures range { IfOk result (λ v. A.in_range v.0 × B.in_range v.1) }
        ensures fault { IfErr result (λ f. IsFaultAt (A.kind ∷ B.kind ∷ []) self.old f) }
    {
        let first: A = self.take(alloc)?;
        let second: B = self.one(alloc)?;
        Ok((first, second))
    }

    /// The last three fields.
    pub fn three<A: Spelled + Drop, B: Spelled + Drop, C: Spelled + Drop>(
        &mut self,
        alloc: Global,
    ) -> Result<(A, B, C), LineFault>
        ensures read { IfOk result (λ v. self.old.fields ≡ A.word v.0 ∷ B.word v.1 ∷ C.word v.2 ∷ []) }
        ensures range { IfOk result (λ v. A.in_range v.0 × B.in_range v.1 × C.in_range v.2) }
        ensures fault { IfErr result (λ f. IsFaultAt (A.kind ∷ B.kind ∷ C.kind ∷ []) self.old f) }
    {
        let first: A = self.take(alloc)?;
        let rest: (B, C) = self.two(alloc)?;
        Ok((first, rest.0, rest.1))
    }

    /// The last four fields.
    pub fn four<A: Spelled + Drop, B: Spelled + Drop, C: Spelled + Drop, D: Spelled + Drop>(
        &mut self,
        alloc: Global,
    ) -> Result<(A, B, C, D), LineFault>
        ensures read { IfOk result (λ v. self.old.fields ≡ A.word v.0 ∷ B.word v.1 ∷ C.word v.2 ∷ D.word v.3 ∷ []) }
        ensures range { IfOk result (λ v. A.in_range v.0 × B.in_range v.1 × C.in_range v.2 × D.in_range v.3) }
        ensures fault { IfErr result (λ f. IsFaultAt (A.kind ∷ B.kind ∷ C.kind ∷ D.kind ∷ []) self.old f) }
    {
        let first: A = self.take(alloc)?;
        let rest: (B, C, D) = self.three(alloc)?;
        Ok((first, rest.0, rest.1, rest.2))
    }

    /// The last five fields.
    pub fn five<
        A: Spelled + Drop,
        B: Spelled + Drop,
        C: Spelled + Drop,
        D: Spelled + Drop,
        E: Spelled + Drop,
    >(&mut self, alloc: Global) -> Result<(A, B, C, D, E), LineFault>
        ensures read { IfOk result (λ v. self.old.fields ≡ A.word v.0 ∷ B.word v.1 ∷ C.word v.2 ∷ D.word v.3 ∷ E.word v.4 ∷ []) }
        ensures range { IfOk result (λ v. A.in_range v.0 × B.in_range v.1 × C.in_range v.2 × D.in_range v.3 × E.in_range v.4) }
        ensures fault { IfErr result (λ f. IsFaultAt (A.kind ∷ B.kind ∷ C.kind ∷ D.kind ∷ E.kind ∷ []) self.old f) }
    {
        let first: A = self.take(alloc)?;
        let rest: (B, C, D, E) = self.four(alloc)?;
        Ok((first, rest.0, rest.1, rest.2, rest.3))
    }

    /// All fields that are left, each of one sort.
    pub fn all<A: Spelled + Drop>(&mut self, alloc: Global) -> Result<Seq<A>, LineFault>
        ensures read { IfOk result (λ vs. self.old.fields ≡ map A.word vs) }
        ensures range { IfOk result (λ vs. Every A.in_range vs) }
        ensures fault { IfErr result (λ f. IsFaultAt (each A.kind self.old.fields) self.old f) }
    {
        let mut values = Seq::new(alloc);
        while self.has_more() {
            let value: A = self.take(alloc)?;
            values.push(value)?;
        }
        Ok(values)
    }
}
