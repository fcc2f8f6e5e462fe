//! Bound names of heads, where binders come or go.
ghost use Rattle.std.specs.Prelude.{◌≡◌, ◌+◌, option_map, IfOk, IfSome};
ghost use Rattle.ab_term.specs.Substitution as tree;
ghost use Rattle.ab_term.specs.Reach as reach;
ghost use Rattle.ab_store.specs.ab_types.specs.Entries.{Table};
ghost use Rattle.ab_store.specs.Reading.{Contents, head_reading};
ghost use Rattle.ab_store.specs.Naming.{HoldsHead, HeadIsTyped};

use ab_store::Head;
use std::alloc::AllocError;

/// The number of binders, with one more. More than there are numbers is want of memory.
pub(crate) fn next(binders: usize) -> Result<usize, AllocError>
    ensures { IfOk result (λ n. n ≡ binders + 1) }
{
    match binders.checked_add(1) {
        Some(n) => Ok(n),
        None => Err(AllocError),
    }
}

/// The sum of the numbers. More than there are numbers is want of memory.
fn sum(a: usize, b: usize) -> Result<usize, AllocError>
    ensures { IfOk result (λ n. n ≡ a + b) }
{
    match a.checked_add(b) {
        Some(n) => Ok(n),
        None => Err(AllocError),
    }
}

/// An index, where `by` binders are put in at `at`.
fn raise_index(by: usize, at: usize, index: usize) -> Result<usize, AllocError>
    ensures { IfOk result (λ n. n ≡ reach.raise_index by at index) }
{
    if index < at {
        Ok(index)
    } else {
        sum(index, by)
    }
}

/// A head, where `by` binders are put in at `at`.
pub(crate) fn raise_head(by: usize, at: usize, head: Head) -> Result<Head, AllocError>
    ensures reads { IfOk result (λ h. (types : Table) (store : Contents) →
        head_reading types store h ≡ reach.raise_head by at (head_reading types store head)) }
    ensures held { IfOk result (λ h. (store : Contents) → HoldsHead store head → HoldsHead store h) }
    ensures typed { IfOk result (λ h. (types : Table) → HeadIsTyped types head → HeadIsTyped types h) }
{
    match head {
        Head::Index(index) => Ok(Head::Index(raise_index(by, at, index)?)),
        Head::Const(_) | Head::Logic(_) | Head::Nominal(_, _) | Head::Cell(_) => Ok(head),
    }
}

/// An index, where the binder at `at` goes: `None` for `at` itself.
fn lower_index(at: usize, index: usize) -> Option<usize>
    ensures { result ≡ tree.lower_index at index }
{
    if index < at {
        Some(index)
    } else if index == at {
        None
    } else {
        Some(index - 1)
    }
}

/// A head, where the binder at `at` goes: `None` for that binder's name.
pub(crate) fn lower_head(at: usize, head: Head) -> Option<Head>
    ensures reads { (types : Table) (store : Contents) →
        option_map (head_reading types store) result ≡ tree.lower_head at (head_reading types store head) }
    ensures held { IfSome result (λ h. (store : Contents) → HoldsHead store head → HoldsHead store h) }
    ensures typed { IfSome result (λ h. (types : Table) → HeadIsTyped types head → HeadIsTyped types h) }
{
    match head {
        Head::Index(index) => match lower_index(at, index) {
            Some(lower) => Some(Head::Index(lower)),
            None => None,
        },
        Head::Const(_) | Head::Logic(_) | Head::Nominal(_, _) | Head::Cell(_) => Some(head),
    }
}
