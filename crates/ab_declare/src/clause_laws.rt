//! Laws of written clauses.
ghost use Rattle.std.specs.Prelude.{◌≡◌, ℕ, Ok};
ghost use Rattle.ab_term.specs.Types.{Ty};
ghost use Rattle.ab_norm.specs.ab_types.specs.Entries.{Table, kinds, signature};
ghost use Rattle.ab_norm.specs.ab_types.specs.Sound.{IsTable};
ghost use Rattle.ab_grammar.specs.CommandTrees as written;
ghost use Rattle.ab_formulas.specs.Clauses.{Clause as AClause};
ghost use Rattle.ab_declare.specs.ClauseReadings.{Parts};
ghost use Rattle.ab_declare.specs.ClauseMeanings.{parts_found, body_type, IsKeptAs};
ghost use Rattle.ab_declare.specs.ClauseNumbering.{AreOne};

/// From which number on the variables of a clause are numbered makes no difference: it is one with the clause whose variables
/// are numbered from 0 on.
pub fn numbers_make_no_difference()
    ensures { (t : Table) (c : written.Clause) (A : Ty) (n : ℕ) (e : Parts) (k : AClause) → IsTable t → parts_found (kinds t) (signature t) c ≡ Ok e →
        IsKeptAs (signature t) n e A (body_type A c.body) k → (first : AClause) × IsKeptAs (signature t) 0 e A (body_type A c.body) first × AreOne k first }
{}
