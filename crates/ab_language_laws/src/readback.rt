//! What is printed reads back as what was printed: laws, each the contract of a function that does nothing.

ghost use Rattle.std.specs.Prelude.{ℕ, ◌+◌, ◌-◌, ◌^◌, ◌<◌, List, []};
ghost use Rattle.ab_term.specs.Types.{Ty};
ghost use Rattle.ab_term.specs.Terms.{Term};
ghost use Rattle.ab_term.specs.Sizes.{size};
ghost use Rattle.ab_term.specs.Typing.{Signature, HasType};
ghost use Rattle.ab_print.specs.Shapes.{Shape};
ghost use Rattle.ab_print.specs.ShapeText.{bytes, tokens};
ghost use Rattle.ab_print.specs.NameAssignment.{printed};
ghost use Rattle.ab_grammar.specs.Grammar.{Text};
ghost use Rattle.ab_print.specs.NameScopes.{HasLists};
ghost use Rattle.ab_print.specs.ShapeTrees.{tree_of};
ghost use Rattle.ab_language_laws.specs.Legible.{StandsInWords};
ghost use Rattle.ab_language_laws.specs.Resolution.{StandsAs};
ghost use Rattle.ab_language_laws.specs.Spellings.{IsPlain, HasTokens};

/// Names resolve to what they were printed for: what is printed of a closed well-typed term, each of its names looked up
/// from the innermost binder out, is the term. No bound name captures another, nor what is called like it. The numbers of
/// names are those of 64 bits, so the term has fewer nodes than that.
pub fn names_resolve<Var>()
    ensures { (name : Var → List ℕ) (sg : Signature) (A : Ty) (t : Term Var (List ℕ)) →
        HasType sg [] t A → size t + 1 < 2 ^ 64 - 1 → StandsAs name [] (printed name t) t }
{}

/// The bytes of a shape whose names are words split into its tokens: no two of them run into one, none falls into two, and no
/// comment begins between them.
pub fn bytes_split_into_tokens()
    ensures { (s : Shape) → IsPlain s → HasTokens (bytes s) (tokens s) }
{}

/// What is printed of a closed well-typed term reads back, where its names are words and neither a size mark nor `::`
/// without its operands stands in it: its bytes split into tokens that are a text of the grammar, and what this reads as is the printed tree.
pub fn printed_bytes_read_back<Var>()
    ensures { (name : Var → List ℕ) (sg : Signature) (A : Ty) (t : Term Var (List ℕ)) → HasLists sg → HasType sg [] t A → StandsInWords name t →
        HasTokens (bytes (printed name t)) (tokens (printed name t)) × Text (tokens (printed name t)) (tree_of (printed name t)) }
{}
