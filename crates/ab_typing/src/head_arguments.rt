//! The types of heads, taken apart argument by argument.
ghost use Rattle.std.specs.Prelude.{◌≡◌, ◌↔◌, true, MatchOption, IfSome};
ghost use Rattle.ab_term.specs.Logical.{logical_type};
ghost use Rattle.ab_term.specs.Types.{arrow};
ghost use Rattle.ab_store.specs.ab_types.specs.Entries.{Table};
ghost use Rattle.ab_store.specs.ab_types.specs.Ids.{HoldsType, type_of};
ghost use Rattle.ab_store.specs.Trees.{logical_of};
ghost use Rattle.ab_store.specs.Naming.{LogicalIsTyped};
ghost use Rattle.ab_typing.specs.HeadArguments.{AreBuiltIn, IsKind, wanted_type, HoldsWanted, rest_type, HoldsRest};

use crate::built_in::BuiltIn;
use ab_store::Logical;
use ab_store::types::{TypeId, TypeTable, TypeView};

/// The type of an argument. The type of functions from one type to another need not be in the table.
#[derive(Clone, Copy)]
pub enum Wanted {
    Plain(TypeId),
    Function(TypeId, TypeId),
}

/// What is still taken, and the type of what comes out.
#[derive(Clone, Copy)]
pub enum Rest {
    /// A type of the table, which may be one of functions.
    Done(TypeId),
    One(Wanted, TypeId),
    Two(Wanted, Wanted, TypeId),
    Three(Wanted, Wanted, Wanted, TypeId),
}

/// The next argument, and what is taken behind it.
#[derive(Clone, Copy)]
pub struct Taking {
    pub first: Wanted,
    pub then: Rest,
}

/// What a logical constant takes.
pub fn taken_by(built: BuiltIn, constant: Logical) -> Rest
    ensures reads { (types : Table) → AreBuiltIn types built →
        rest_type types result ≡ logical_type (logical_of types constant) }
    ensures held { (types : Table) → AreBuiltIn types built → LogicalIsTyped types constant → HoldsRest types result }
{
    let prop = Wanted::Plain(built.prop);
    let o = Wanted::Plain(built.o);
    let olist = Wanted::Plain(built.olist);
    match constant {
        Logical::True => Rest::Done(built.prop),
        Logical::False => Rest::Done(built.prop),
        Logical::And => Rest::Two(prop, prop, built.prop),
        Logical::Or => Rest::Two(prop, prop, built.prop),
        Logical::Arrow => Rest::Two(prop, prop, built.prop),
        Logical::Equal(ty) => Rest::Two(Wanted::Plain(ty), Wanted::Plain(ty), built.prop),
        Logical::Forall(ty) => Rest::One(Wanted::Function(ty, built.prop), built.prop),
        Logical::Exists(ty) => Rest::One(Wanted::Function(ty, built.prop), built.prop),
        Logical::Nabla(ty) => Rest::One(Wanted::Function(ty, built.prop), built.prop),
        Logical::Judge => Rest::Two(olist, o, built.prop),
        Logical::Focus => Rest::Three(olist, o, o, built.prop),
        Logical::Star(_) => Rest::One(prop, built.prop),
        Logical::At(_) => Rest::One(prop, built.prop),
        Logical::Plus(_) => Rest::One(prop, built.prop),
        Logical::Hash(_) => Rest::One(prop, built.prop),
        Logical::Pi(ty) => Rest::One(Wanted::Function(ty, built.o), built.o),
        Logical::Imply => Rest::Two(o, o, built.o),
        Logical::With => Rest::Two(o, o, built.o),
    }
}

/// The next argument that is taken; `None` where there is none.
pub fn next(types: &TypeTable, rest: Rest) -> Option<Taking>
    requires { HoldsRest types.now rest }
    ensures reads { MatchOption result (IsKind (rest_type types.now rest))
        (λ next. rest_type types.now rest ≡ arrow (wanted_type types.now next.first) (rest_type types.now next.then)) }
    ensures first { IfSome result (λ next. HoldsWanted types.now next.first) }
    ensures then { IfSome result (λ next. HoldsRest types.now next.then) }
{
    let (first, then) = match rest {
        Rest::Done(ty) => match types.view(ty) {
            TypeView::Base(_) => return None,
            TypeView::Arrow(from, to) => (Wanted::Plain(from), Rest::Done(to)),
        },
        Rest::One(first, last) => (first, Rest::Done(last)),
        Rest::Two(first, second, last) => (first, Rest::One(second, last)),
        Rest::Three(first, second, third, last) => (first, Rest::Two(second, third, last)),
    };
    Some(Taking { first, then })
}

/// Whether nothing more is taken, and what comes out is of the type, which is a kind.
pub fn ends_at(types: &TypeTable, rest: Rest, ty: TypeId) -> bool
    requires rest { HoldsRest types.now rest }
    requires ty { HoldsType types.now ty }
    requires kind { IsKind (type_of types.now ty) }
    ensures { (result ≡ true) ↔ (rest_type types.now rest ≡ type_of types.now ty) }
{
    // no two ids of a table stand for one type
    let _ = types.len();
    match rest {
        Rest::Done(other) => other == ty,
        _ => false,
    }
}
