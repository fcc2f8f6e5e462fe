//! Nesting by the grammar: the forms of a text say which of its tokens count, and the reader's count by the tokens alone is theirs.
//! So what is told of tokens that are nested too deeply is true by the grammar's own marks.

ghost use Rattle.std.specs.Prelude.{◌≡◌, ℕ, suc, ◌<◌, List, ◌++◌, map, length, get_or, take, All};
ghost use Rattle.ab_grammar.specs.Token.{Token};
ghost use Rattle.ab_grammar.specs.Tree.{Ty, Tree};
ghost use Rattle.ab_grammar.specs.Grammar.{Text, TypeText};
ghost use Rattle.ab_grammar.specs.Nesting.{spots, limit, blamed};
ghost use Rattle.ab_grammar.specs.Language.{Expression, TypeExpression, Accepted, SyntaxAt, TooNestedAt};
ghost use Rattle.ab_language_laws.specs.NestingMarks.{tokens_of, marks, type_marks, nestings, Alike};
ghost use Rattle.ab_language_laws.specs.FirstDeepToken.{IsAllowed, IsFirstDeep};

/// The marks of an expression's text are of its tokens, and its nesting by them is that by its tokens alone: the name of an abstraction
/// has by its mark what the backslash behind it has.
pub fn nesting_of_an_expression()
    ensures tokens { (ts : List Token) (t : Tree) (d : Text ts t) → tokens_of (marks d.1) ≡ ts }
    ensures nesting { (ts : List Token) (t : Tree) (d : Text ts t) → Alike ts (nestings (marks d.1)) (map (λ s. s.depth) (spots ts)) }
{}

/// The same for a type, where both are one: it has no abstractions.
pub fn nesting_of_a_type()
    ensures tokens { (ts : List Token) (a : Ty) (d : TypeText ts a) → tokens_of (type_marks d) ≡ ts }
    ensures nesting { (ts : List Token) (a : Ty) (d : TypeText ts a) → Alike ts (nestings (type_marks d)) (map (λ s. s.depth) (spots ts)) }
    ensures same { (ts : List Token) (a : Ty) (d : TypeText ts a) → nestings (type_marks d) ≡ map (λ s. s.depth) (spots ts) }
{}

/// Where tokens are refused for their depth as an expression, the token that is told is the first that is nested above the limit, by the
/// marks of each text that begins with the tokens up to the refused one, and there is such a text. A text in which some token is nested
/// above the limit by its marks is refused so. And such a refusal depends on nothing behind the refused token.
pub fn the_told_token_is_the_first_too_deep()
    ensures first { (ts : List Token) (i : ℕ) → TooNestedAt Expression ts i → (us zs : List Token) (t : Tree) (d : Text us t) → us ≡ take (suc i) ts ++ zs → IsFirstDeep (nestings (marks d.1)) (blamed ts i) }
    ensures some_text { (ts : List Token) (i : ℕ) → TooNestedAt Expression ts i → (zs : List Token) × (t : Tree) × Text (take (suc i) ts ++ zs) t }
    ensures refused { (ts : List Token) (t : Tree) (d : Text ts t) (k : ℕ) → limit < get_or (nestings (marks d.1)) k 0 → (i : ℕ) × TooNestedAt Expression ts i × IsFirstDeep (nestings (marks d.1)) (blamed ts i) }
    ensures whatever_follows { (vs ws zs : List Token) (i : ℕ) → i < length vs → TooNestedAt Expression (vs ++ ws) i → TooNestedAt Expression (vs ++ zs) i }
{}

/// An expression is accepted exactly where its tokens are a text and no token is nested above the limit by the marks. Where they are
/// refused for their form, in a text that begins as they do no token before the last that was read is nested above the limit. The last may
/// be: a name behind `pi` counts in each such text, since only a backslash may follow it.
pub fn an_expression_is_accepted_where_no_token_is_too_deep()
    ensures text { (ts : List Token) (t : Tree) → Accepted Expression ts t → Text ts t }
    ensures allowed { (ts : List Token) (t : Tree) → Accepted Expression ts t → (d : Text ts t) → All IsAllowed (nestings (marks d.1)) }
    ensures accepted { (ts : List Token) (t : Tree) (d : Text ts t) → All IsAllowed (nestings (marks d.1)) → Accepted Expression ts t }
    ensures before_a_fault { (ts : List Token) (i : ℕ) → SyntaxAt Expression ts i → (us zs : List Token) (t : Tree) (d : Text us t) → us ≡ take i ts ++ zs → (j : ℕ) → suc j < i → IsAllowed (get_or (nestings (marks d.1)) j 0) }
{}

/// The same where tokens are refused for their depth as a type: the refused token is told itself.
pub fn the_told_token_of_a_type_is_the_first_too_deep()
    ensures first { (ts : List Token) (i : ℕ) → TooNestedAt TypeExpression ts i → (us zs : List Token) (a : Ty) (d : TypeText us a) → us ≡ take (suc i) ts ++ zs → IsFirstDeep (nestings (type_marks d)) (blamed ts i) }
    ensures some_text { (ts : List Token) (i : ℕ) → TooNestedAt TypeExpression ts i → (zs : List Token) × (a : Ty) × TypeText (take (suc i) ts ++ zs) a }
    ensures refused { (ts : List Token) (a : Ty) (d : TypeText ts a) (k : ℕ) → limit < get_or (nestings (type_marks d)) k 0 → (i : ℕ) × TooNestedAt TypeExpression ts i × IsFirstDeep (nestings (type_marks d)) (blamed ts i) }
    ensures whatever_follows { (vs ws zs : List Token) (i : ℕ) → i < length vs → TooNestedAt TypeExpression (vs ++ ws) i → TooNestedAt TypeExpression (vs ++ zs) i }
    ensures itself { (ts : List Token) (i : ℕ) → TooNestedAt TypeExpression ts i → blamed ts i ≡ i }
{}

/// A type is accepted exactly where its tokens are a text and no token is nested above the limit by the marks. Where they are refused for
/// their form, in a text that begins as they do no token that was read is nested above the limit.
pub fn a_type_is_accepted_where_no_token_is_too_deep()
    ensures text { (ts : List Token) (a : Ty) → Accepted TypeExpression ts a → TypeText ts a }
    ensures allowed { (ts : List Token) (a : Ty) → Accepted TypeExpression ts a → (d : TypeText ts a) → All IsAllowed (nestings (type_marks d)) }
    ensures accepted { (ts : List Token) (a : Ty) (d : TypeText ts a) → All IsAllowed (nestings (type_marks d)) → Accepted TypeExpression ts a }
    ensures before_a_fault { (ts : List Token) (i : ℕ) → SyntaxAt TypeExpression ts i → (us zs : List Token) (a : Ty) (d : TypeText us a) → us ≡ take i ts ++ zs → (j : ℕ) → j < i → IsAllowed (get_or (nestings (type_marks d)) j 0) }
{}
