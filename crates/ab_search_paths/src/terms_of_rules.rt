//! The terms for what a rule of a judgement leaves open at the kernel. A part of a formula in focus has names, and what stands for one
//! of them is found when the rule is taken, or it is closed by an `exists` in what the rule leaves, where it stands in goals alone. Since
//! the kernel has the formula with all values in their places, a name may stand in goals alone there that didn't on the path.
ghost use Rattle.std.specs.Prelude.{All, IfOk, IfSome};
ghost use Rattle.ab_logic.specs.declared.world.World.{World as AWorld};
ghost use Rattle.ab_search_paths.specs.Paths.{IsTermIn, HoldsEntry};
ghost use Rattle.ab_search_paths.specs.Parts.{HoldsPathFrom, HoldsNameTerm, HoldsAssumed, HoldsRuleTerms};

use crate::entries::{Entry, RuleTaken, Taken};
use ab_norm::store::TermId;
use std::alloc::{AllocError, Global};

/// A name that the kernel leaves open, and whether what stands for it depends on the judgement's constants besides.
#[derive(Clone, Copy)]
pub struct OpenName {
    pub name: usize,
    pub raised: bool,
}

/// What the path has for the names that the kernel leaves open.
#[derive(Drop)]
pub enum RuleTerms {
    /// These terms for the first of them. So many ways of the path behind the rule gave them.
    Given(Vec<TermId>, usize),
    /// A hypothesis closes the path in the middle of the row of its `exists`.
    Assumed(Assumed),
}

/// A hypothesis that binds names which the kernel leaves open: its number, the formula, how many names it binds, what stands for
/// each open name, and how many ways of the path there are before the one by the hypothesis.
#[derive(Drop)]
pub struct Assumed {
    pub number: usize,
    pub formula: TermId,
    pub bound: usize,
    pub names: Vec<NameTerm>,
    pub ways: usize,
}

/// What stands for a name.
#[derive(Clone, Copy)]
pub enum NameTerm {
    /// This term.
    Term(TermId),
    /// What the hypothesis says there is for the name of this number that it binds.
    Bound(usize),
}

/// The names that are closed, or those that aren't.
fn names_where(alloc: Global, closed: &[bool], wanted: bool) -> Result<Vec<usize>, AllocError> {
    let mut list = Vec::new(alloc);
    for name in 0..closed.len() {
        if closed[name] == wanted {
            list.push(name)?;
        }
    }
    Ok(list)
}

/// The names that the kernel leaves open, in order: of those that stand for something when the rule is taken the ones of these places,
/// and then those that are closed.
pub fn open_names(
    alloc: Global,
    closed: &[bool],
    left: &[usize],
) -> Result<Vec<OpenName>, AllocError> {
    let own = names_where(alloc, closed, false)?;
    let mut list = Vec::new(alloc);
    for place in left {
        let Some(name) = own.get(*place) else {
            return Err(AllocError);
        };
        list.push(OpenName {
            name: *name,
            raised: true,
        })?;
    }
    for name in names_where(alloc, closed, true)?.as_slice() {
        list.push(OpenName {
            name: *name,
            raised: false,
        })?;
    }
    Ok(list)
}

/// Whether the open names end in these, and the path takes them in the same way.
fn end_alike(open: &[OpenName], closed: &[usize]) -> bool {
    if open.len() < closed.len() {
        return false;
    }
    let before = open.len() - closed.len();
    for place in 0..closed.len() {
        let one = open[before + place];
        if one.raised || one.name != closed[place] {
            return false;
        }
    }
    true
}

/// The place of the name in the list.
fn place_of(names: &[usize], name: usize) -> Option<usize> {
    for place in 0..names.len() {
        if names[place] == name {
            return Some(place);
        }
    }
    None
}

/// The rule's value of this place, if there are so many.
fn value_at(rule: &RuleTaken, place: usize) -> Option<TermId>
    ensures { (w : AWorld) → All (IsTermIn w) rule.now.values.items → IfSome result (IsTermIn w) }
{
    match rule.values.as_slice().get(place) {
        Some(term) => Some(*term),
        None => None,
    }
}

/// The term for the `exists` of this place behind the rule, if one stands there.
fn term_behind(behind: &[Entry], place: usize) -> Option<TermId>
    ensures { (w : AWorld) → All (HoldsEntry w) behind.now → IfSome result (IsTermIn w) }
{
    match &behind.get(place)?.taken {
        Taken::Term(term) => Some(*term),
        _ => None,
    }
}

/// The term for the name: the rule's value, or the term for an `exists` of the path behind it.
fn term_for(
    rule: &RuleTaken,
    own: &[usize],
    closed: &[usize],
    behind: &[Entry],
    name: usize,
) -> Option<TermId>
    ensures { (w : AWorld) → HoldsPathFrom w rule.now behind.now → IfSome result (IsTermIn w) }
{
    if let Some(place) = place_of(own, name) {
        return value_at(rule, place);
    }
    let place = place_of(closed, name)?;
    if place >= terms_behind(behind, closed.len()) {
        return None;
    }
    term_behind(behind, place)
}

/// How many ways of the path, of so many at most, give a term for an `exists`, before another way comes.
fn terms_behind(behind: &[Entry], most: usize) -> usize {
    for place in 0..most {
        match behind.get(place) {
            Some(entry) => {
                if !matches!(entry.taken, Taken::Term(_)) {
                    return place;
                }
            }
            None => return place,
        }
    }
    most
}

/// The terms for the first so many of the names that the kernel leaves open.
fn terms_given(
    alloc: Global,
    rule: &RuleTaken,
    open: &[OpenName],
    count: usize,
    behind: &[Entry],
) -> Result<Vec<TermId>, AllocError>
    ensures { IfOk result (λ list. (w : AWorld) → HoldsPathFrom w rule.now behind.now → All (IsTermIn w) list.items) }
{
    let own = names_where(alloc, &rule.closed, false)?;
    let closed = names_where(alloc, &rule.closed, true)?;
    let mut terms = Vec::new(alloc);
    for place in 0..count {
        let Some(one) = open.get(place) else {
            return Err(AllocError);
        };
        let Some(term) = term_for(rule, &own, &closed, behind, one.name) else {
            return Err(AllocError);
        };
        terms.push(term)?;
    }
    Ok(terms)
}

/// What stands for the name, where the path is closed by a hypothesis behind so many ways.
fn name_term(
    rule: &RuleTaken,
    own: &[usize],
    closed: &[usize],
    behind: &[Entry],
    ways: usize,
    name: usize,
) -> Option<NameTerm>
    ensures { (w : AWorld) → HoldsPathFrom w rule.now behind.now → IfSome result (HoldsNameTerm w) }
{
    if let Some(term) = term_for(rule, own, closed, behind, name) {
        return Some(NameTerm::Term(term));
    }
    let number = place_of(closed, name)?.checked_sub(ways)?;
    Some(NameTerm::Bound(number))
}

/// The same of each of the names that the kernel leaves open.
fn name_terms(
    alloc: Global,
    rule: &RuleTaken,
    open: &[OpenName],
    behind: &[Entry],
    ways: usize,
) -> Result<Vec<NameTerm>, AllocError>
    ensures { IfOk result (λ list. (w : AWorld) → HoldsPathFrom w rule.now behind.now → All (HoldsNameTerm w) list.items) }
{
    let own = names_where(alloc, &rule.closed, false)?;
    let closed = names_where(alloc, &rule.closed, true)?;
    let mut names = Vec::new(alloc);
    for one in open {
        let Some(found) = name_term(rule, &own, &closed, behind, ways, one.name) else {
            return Err(AllocError);
        };
        names.push(found)?;
    }
    Ok(names)
}

/// What stands for the names that the kernel leaves open, where the path is closed by a hypothesis behind so many ways. The path closes
/// so many names.
fn assume(
    alloc: Global,
    rule: &RuleTaken,
    open: &[OpenName],
    behind: &[Entry],
    ways: usize,
    count: usize,
) -> Result<Assumed, AllocError>
    ensures { IfOk result (λ found. (w : AWorld) → HoldsPathFrom w rule.now behind.now → HoldsAssumed w found) }
{
    let Some(entry) = behind.get(ways) else {
        return Err(AllocError);
    };
    let Taken::Hypothesis(number) = &entry.taken else {
        return Err(AllocError);
    };
    let names = name_terms(alloc, rule, open, behind, ways)?;
    Ok(Assumed {
        number: *number,
        formula: entry.conclusion,
        bound: count.saturating_sub(ways),
        names,
        ways,
    })
}

/// What the path has for the names that the kernel leaves open: terms for those before the ones that it closes too, if these come
/// last, and else for all, and then the path's ways for those that it closes are gone as well.
pub fn rule_terms(
    alloc: Global,
    rule: &RuleTaken,
    open: &[OpenName],
    behind: &[Entry],
) -> Result<RuleTerms, AllocError>
    ensures { IfOk result (λ found. (w : AWorld) → HoldsPathFrom w rule.now behind.now → HoldsRuleTerms w found) }
{
    let closed = names_where(alloc, &rule.closed, true)?;
    let count = closed.len();
    if end_alike(open, &closed) {
        let terms = terms_given(alloc, rule, open, open.len().saturating_sub(count), behind)?;
        return Ok(RuleTerms::Given(terms, 0));
    }
    let ways = terms_behind(behind, count);
    if ways < count {
        let found = assume(alloc, rule, open, behind, ways, count)?;
        return Ok(RuleTerms::Assumed(found));
    }
    let terms = terms_given(alloc, rule, open, open.len(), behind)?;
    Ok(RuleTerms::Given(terms, count))
}
