//! What is printed reads as what was printed.
ghost use Rattle.std.specs.Prelude.{ℕ, List};
ghost use Rattle.ab_grammar.specs.Grammar.{Text};
ghost use Rattle.ab_term.specs.Types.{Ty};
ghost use Rattle.ab_term.specs.Terms.{Term};
ghost use Rattle.ab_term.specs.Typing.{Signature, HasType};
ghost use Rattle.ab_print.specs.NameAssignment.{printed};
ghost use Rattle.ab_print.specs.NameScopes.{HasLists};
ghost use Rattle.ab_print.specs.Shapes.{Shape};
ghost use Rattle.ab_print.specs.ShapeText.{tokens};
ghost use Rattle.ab_print.specs.ShapeTrees.{tree_of, IsFormed};

/// The parentheses are right: the tokens of a shape that has all its parts are a text of the grammar, and the
/// tree that they read as is the shape's own.
pub fn shapes_read_back()
    ensures { (s : Shape) → IsFormed s → Text (tokens s) (tree_of s) }
{}

/// What is printed of a well-typed term, its size marks left out, is a text of the grammar, and reads as the printed
/// tree: names in place of indices, applications, signs, quantifiers.
pub fn terms_read_back<Var>()
    ensures { (name : Var → List ℕ) (sg : Signature) (G : List Ty) (A : Ty) (t : Term Var (List ℕ)) →
        HasLists sg → HasType sg G t A → Text (tokens (printed name t)) (tree_of (printed name t)) }
{}
