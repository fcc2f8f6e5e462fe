//! How a head makes the marks of a formula.
ghost use Rattle.std.specs.Prelude.{◌≡◌, List};
ghost use Rattle.ab_norm.specs.ab_types.specs.Entries.{Table};
ghost use Rattle.ab_norm.specs.ab_store.specs.Trees.{head_in, logical_of};
ghost use Rattle.ab_norm.specs.ab_store.specs.declared.node.CellEntry.{CellEntry};
ghost use Rattle.ab_formulas.specs.Marks.{making_of, making_of_constant};
ghost use Rattle.ab_sequents.specs.HeadMarks.{making_read};

use ab_logic::Sign;
use ab_norm::store::{Head, Logical};

/// Where the marks of a formula come from.
#[derive(Clone, Copy)]
pub enum Making {
    /// It is an atom or a judgement, or has none.
    ByHead,
    /// From the scope of a quantifier.
    ByScope,
    /// From the parts of a connective.
    ByParts,
    /// It is an atom or a judgement with this mark.
    ByMark(Sign),
}

/// How the head makes the marks of a formula.
pub(crate) fn making_of(head: Head) -> Making
    ensures { (types : Table) (cells : List CellEntry) → making_read result ≡ making_of (head_in types cells head) }
{
    match head {
        Head::Logic(logical) => making_of_constant(logical),
        _ => Making::ByHead,
    }
}

/// How a logical constant makes the marks of a formula.
fn making_of_constant(logical: Logical) -> Making
    ensures { (types : Table) → making_read result ≡ making_of_constant (logical_of types logical) }
{
    match logical {
        Logical::And | Logical::Or | Logical::Arrow => Making::ByParts,
        Logical::Forall(_) | Logical::Exists(_) | Logical::Nabla(_) => Making::ByScope,
        Logical::Star(level) => Making::ByMark(Sign::Star(level)),
        Logical::At(level) => Making::ByMark(Sign::At(level)),
        Logical::Plus(level) => Making::ByMark(Sign::Plus(level)),
        Logical::Hash(level) => Making::ByMark(Sign::Hash(level)),
        _ => Making::ByHead,
    }
}
