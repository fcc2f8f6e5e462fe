//! Which names of a pattern are kept, where it becomes the same as another.
ghost use Rattle.std.specs.Prelude.{◌≡◌, ◌<◌, ◌↔◌, true, length, get_or, map, All, IfOk};
ghost use Rattle.std.specs.List.{list_all};
ghost use Rattle.ab_term.specs.Abstraction as closing;
ghost use Rattle.ab_norm.specs.ab_types.specs.Entries.{Table};
ghost use Rattle.ab_norm.specs.ab_types.specs.Sound.{IsTable};
ghost use Rattle.ab_norm.specs.ab_store.specs.declared.node.Head.{Head as AHead};
ghost use Rattle.ab_norm.specs.ab_store.specs.Trees.{Contents, head_reading};
ghost use Rattle.ab_norm.specs.ab_store.specs.Naming.{HeadIsTyped};
ghost use Rattle.ab_unifiers.specs.Unification as solve;

use crate::names::is_among;
use crate::rigid_rules::is_same_head;
use ab_norm::store::Head;
use std::alloc::{AllocError, Global};

/// Whether each list has a name at the place, and these are the same.
fn agree_at(names: &[Head], others: &[Head], place: usize) -> bool
    ensures { (result ≡ true) ↔ ((place < length names.now) × (place < length others.now)
        × ((a b : AHead) → get_or names.now place a ≡ get_or others.now place b)) }
{
    place < names.len() && place < others.len() && is_same_head(names[place], others[place])
}

/// At each place, whether the names are the same.
pub fn agreement_flags(
    alloc: Global,
    names: &[Head],
    others: &[Head],
) -> Result<Vec<bool>, AllocError>
    ensures { IfOk result (λ keep. (types : Table) (store : Contents) → IsTable types →
        All (HeadIsTyped types) names.now → All (HeadIsTyped types) others.now →
        keep.items ≡ solve.agreeing (map (head_reading types store) names.now) (map (head_reading types store) others.now)) }
{
    let mut keep = Vec::new(alloc);
    for place in 0..names.len().max(others.len()) {
        keep.push(agree_at(names, others, place))?;
    }
    Ok(keep)
}

/// For each of the names, whether it is one of the others.
pub fn common(alloc: Global, names: &[Head], others: &[Head]) -> Result<Vec<bool>, AllocError>
    ensures { IfOk result (λ keep. (types : Table) (store : Contents) → IsTable types →
        All (HeadIsTyped types) names.now → All (HeadIsTyped types) others.now →
        keep.items ≡ map (closing.among (map (head_reading types store) others.now)) (map (head_reading types store) names.now)) }
{
    let mut keep = Vec::new(alloc);
    for name in names {
        keep.push(is_among(others, *name))?;
    }
    Ok(keep)
}

/// Whether all of the flags are set.
pub fn keeps_all(keep: &[bool]) -> bool
    ensures { result ≡ list_all (λ kept. kept) keep.now }
{
    for kept in keep {
        if !*kept {
            return false;
        }
    }
    true
}
