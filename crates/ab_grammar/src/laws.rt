//! Laws of the grammar, each as the contract of a function that does nothing.
ghost use Rattle.std.specs.Prelude.{◌≡◌, ℕ, List};
ghost use Rattle.ab_grammar.specs.Token.{Token};
ghost use Rattle.ab_grammar.specs.Tree.{Ty, Tree};
ghost use Rattle.ab_grammar.specs.Grammar.{Text, TypeText};
ghost use Rattle.ab_grammar.specs.Language.{Expression, TypeExpression, Accepted, SyntaxAt, TooNestedAt};
ghost use Rattle.ab_grammar.specs.CommandTrees as commands;
ghost use Rattle.ab_grammar.specs.CommandTable.{CommandText, standing, StandsAt};
ghost use Rattle.ab_grammar.specs.declared.head.Stand.{Stand};
ghost use Rattle.ab_grammar.specs.declared.file.FileKind.{FileKind};
ghost use Rattle.ab_grammar.specs.FileTrees.{Item};
ghost use Rattle.ab_grammar.specs.FileTable.{TitleText, ItemText};
ghost use Rattle.ab_grammar.specs.Parentheses.{without_parentheses};

/// A list of tokens is a text of at most one expression.
pub fn one_tree()
    ensures { (ts : List Token) (t u : Tree) → Text ts t → Text ts u → t ≡ u }
{}

/// A list of tokens is a text of at most one type.
pub fn one_type()
    ensures { (ts : List Token) (a b : Ty) → TypeText ts a → TypeText ts b → a ≡ b }
{}

/// A list of tokens is the text of at most one command.
pub fn one_command()
    ensures { (ts : List Token) (c d : commands.Command) → Accepted CommandText ts c → Accepted CommandText ts d → c ≡ d }
{}

/// A command stands where its first tokens say, which say one place alone.
pub fn one_place()
    ensures one { (ts : List Token) (a b : Stand) → StandsAt ts a → StandsAt ts b → a ≡ b }
    ensures of_a_command { (ts : List Token) (c : commands.Command) → Accepted CommandText ts c → StandsAt ts (standing c) }
{}

/// An expression says what its texts are: any two of them differ only in their parentheses.
pub fn one_text()
    ensures { (ts us : List Token) (t : Tree) → Text ts t → Text us t → without_parentheses ts ≡ without_parentheses us }
{}

/// Tokens are the text of an expression, or refused at one token for its form, or refused at one for its depth: one of these alone.
pub fn one_answer_for_an_expression()
    ensures text_or_syntax { (ts : List Token) (a : Tree) (i : ℕ) → Accepted Expression ts a → SyntaxAt Expression ts i → ⊥ }
    ensures text_or_nested { (ts : List Token) (a : Tree) (i : ℕ) → Accepted Expression ts a → TooNestedAt Expression ts i → ⊥ }
    ensures syntax_or_nested { (ts : List Token) (i j : ℕ) → SyntaxAt Expression ts i → TooNestedAt Expression ts j → ⊥ }
    ensures one_syntax { (ts : List Token) (i j : ℕ) → SyntaxAt Expression ts i → SyntaxAt Expression ts j → i ≡ j }
    ensures one_nested { (ts : List Token) (i j : ℕ) → TooNestedAt Expression ts i → TooNestedAt Expression ts j → i ≡ j }
{}

/// Tokens are the text of a type, or refused at one token for its form, or refused at one for its depth: one of these alone.
pub fn one_answer_for_a_type()
    ensures text_or_syntax { (ts : List Token) (a : Ty) (i : ℕ) → Accepted TypeExpression ts a → SyntaxAt TypeExpression ts i → ⊥ }
    ensures text_or_nested { (ts : List Token) (a : Ty) (i : ℕ) → Accepted TypeExpression ts a → TooNestedAt TypeExpression ts i → ⊥ }
    ensures syntax_or_nested { (ts : List Token) (i j : ℕ) → SyntaxAt TypeExpression ts i → TooNestedAt TypeExpression ts j → ⊥ }
    ensures one_syntax { (ts : List Token) (i j : ℕ) → SyntaxAt TypeExpression ts i → SyntaxAt TypeExpression ts j → i ≡ j }
    ensures one_nested { (ts : List Token) (i j : ℕ) → TooNestedAt TypeExpression ts i → TooNestedAt TypeExpression ts j → i ≡ j }
{}

/// Tokens are the text of a command, or refused at one token for its form, or refused at one for its depth: one of these alone.
pub fn one_answer_for_a_command()
    ensures text_or_syntax { (ts : List Token) (a : commands.Command) (i : ℕ) → Accepted CommandText ts a → SyntaxAt CommandText ts i → ⊥ }
    ensures text_or_nested { (ts : List Token) (a : commands.Command) (i : ℕ) → Accepted CommandText ts a → TooNestedAt CommandText ts i → ⊥ }
    ensures syntax_or_nested { (ts : List Token) (i j : ℕ) → SyntaxAt CommandText ts i → TooNestedAt CommandText ts j → ⊥ }
    ensures one_syntax { (ts : List Token) (i j : ℕ) → SyntaxAt CommandText ts i → SyntaxAt CommandText ts j → i ≡ j }
    ensures one_nested { (ts : List Token) (i j : ℕ) → TooNestedAt CommandText ts i → TooNestedAt CommandText ts j → i ≡ j }
{}

/// A list of tokens is the text of at most one title of a specification file.
pub fn one_title()
    ensures { (f : FileKind) (ts : List Token) (x y : List ℕ) → Accepted (TitleText f) ts x → Accepted (TitleText f) ts y → x ≡ y }
{}

/// A list of tokens is the text of at most one item of a specification file.
pub fn one_item()
    ensures { (f : FileKind) (ts : List Token) (i j : Item) → Accepted (ItemText f) ts i → Accepted (ItemText f) ts j → i ≡ j }
{}

/// Tokens are the text of a title, or refused at one token for its form, or refused at one for its depth: one of these alone.
pub fn one_answer_for_a_title()
    ensures text_or_syntax { (f : FileKind) (ts : List Token) (a : List ℕ) (i : ℕ) → Accepted (TitleText f) ts a → SyntaxAt (TitleText f) ts i → ⊥ }
    ensures text_or_nested { (f : FileKind) (ts : List Token) (a : List ℕ) (i : ℕ) → Accepted (TitleText f) ts a → TooNestedAt (TitleText f) ts i → ⊥ }
    ensures syntax_or_nested { (f : FileKind) (ts : List Token) (i j : ℕ) → SyntaxAt (TitleText f) ts i → TooNestedAt (TitleText f) ts j → ⊥ }
    ensures one_syntax { (f : FileKind) (ts : List Token) (i j : ℕ) → SyntaxAt (TitleText f) ts i → SyntaxAt (TitleText f) ts j → i ≡ j }
    ensures one_nested { (f : FileKind) (ts : List Token) (i j : ℕ) → TooNestedAt (TitleText f) ts i → TooNestedAt (TitleText f) ts j → i ≡ j }
{}

/// Tokens are the text of an item, or refused at one token for its form, or refused at one for its depth: one of these alone.
pub fn one_answer_for_an_item()
    ensures text_or_syntax { (f : FileKind) (ts : List Token) (a : Item) (i : ℕ) → Accepted (ItemText f) ts a → SyntaxAt (ItemText f) ts i → ⊥ }
    ensures text_or_nested { (f : FileKind) (ts : List Token) (a : Item) (i : ℕ) → Accepted (ItemText f) ts a → TooNestedAt (ItemText f) ts i → ⊥ }
    ensures syntax_or_nested { (f : FileKind) (ts : List Token) (i j : ℕ) → SyntaxAt (ItemText f) ts i → TooNestedAt (ItemText f) ts j → ⊥ }
    ensures one_syntax { (f : FileKind) (ts : List Token) (i j : ℕ) → SyntaxAt (ItemText f) ts i → SyntaxAt (ItemText f) ts j → i ≡ j }
    ensures one_nested { (f : FileKind) (ts : List Token) (i j : ℕ) → TooNestedAt (ItemText f) ts i → TooNestedAt (ItemText f) ts j → i ≡ j }
{}
