//! The trees of commands, as they are written.
use ab_expressions::{Items, Parse, TypeParse};
use ab_name::Name;

/// A predicate that is defined, and its type.
#[derive(Drop)]
pub struct Defined {
    pub name: Name,
    pub ty: TypeParse,
}

/// A clause of a definition.
#[derive(Drop)]
pub struct ClauseParse {
    pub head: Parse,
    /// What stands behind `:=`, where that is written.
    pub body: Option<Parse>,
    /// The place of the head.
    pub place: usize,
}

/// A term that is given for a name, as `X = t`.
#[derive(Drop)]
pub struct Instance {
    pub name: Name,
    pub term: Parse,
}

/// What stands for an antecedent.
#[derive(Drop)]
pub enum Argument {
    /// A hypothesis.
    Named(Name),
    /// `_`, which becomes a goal.
    Hole,
}

/// A command that works on the open proof.
#[derive(Drop)]
pub enum ProofCommand {
    /// `intros H ..`
    Intros(Items<Name>),
    /// `induction on n ..`, a number for each part of the conclusion.
    Induction(Items<u32>),
    Coinduction,
    /// `case H`, and whether `(keep)` is behind it.
    Case(Name, bool),
    /// `apply H to a .. with X = t, ..`
    Apply(Name, Items<Argument>, Items<Instance>),
    /// `backchain H with X = t, ..`
    Backchain(Name, Items<Instance>),
    /// `cut H with K`
    Cut(Name, Name),
    /// `inst H with n1 = t, ..`
    Inst(Name, Items<Instance>),
    /// `monotone H with t`
    Monotone(Name, Parse),
    /// `search n`; the depth is 5 where none is written.
    Search(u32),
    Skip,
    Split,
    /// `split*`
    SplitAll,
    Left,
    Right,
    /// `exists t` or `witness t`
    Exists(Parse),
    Unfold,
    Assert(Parse),
    /// `clear H ..`, of which there is one at least.
    Clear(Items<Name>),
    /// `rename H to w`
    Rename(Name, Name),
    /// `permute (n1 n2 ..) H`: the numbers of the nominal names, and the hypothesis where one is named.
    Permute(Items<u32>, Option<Name>),
}

/// A command.
#[derive(Drop)]
pub enum Command {
    /// `Kind w, .., w type`
    Kind(Items<Name>),
    /// `Type w, .., w ty`
    Typed(Items<Name>, TypeParse),
    /// A block of predicates with its clauses, and whether it is `Define`, and not `CoDefine`.
    Define(bool, Items<Defined>, Items<ClauseParse>),
    /// A theorem's name and formula.
    Theorem(Name, Parse),
    /// `Specification "name"`
    Specification(Name),
    /// `Query e on n to m`: how deep is searched, 5 where that isn't written, and how many answers are told at most, 10 where
    /// that isn't.
    Query(Parse, u32, u32),
    /// `Show w`
    Show(Name),
    Quit,
    /// `Set subgoals on`, or off.
    Subgoals(bool),
    /// `#back`
    Back,
    /// `#reset`
    Reset,
    Undo,
    Abort,
    /// A proof command, with the label before it.
    InProof(Option<Name>, ProofCommand),
}
