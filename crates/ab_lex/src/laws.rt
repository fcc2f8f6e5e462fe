//! Laws of the definitions, each the contract of a function that does nothing.

ghost use Rattle.std.specs.Prelude.{◌≡◌, ◌≤◌, ◌∷◌, ◌++◌, ◌⊎◌, List, ℕ, Contains};
ghost use Rattle.std.specs.Str.{IsAscii};
ghost use Rattle.ab_lex.specs.Units.{Units, UnitRow};
ghost use Rattle.ab_lex.specs.Commands.{Splits, Item, ItemsWithin, HasBlankRest, GoesOn};
ghost use Rattle.ab_lex.specs.PendingText.{Pending, Awaits};
ghost use Rattle.ab_lex.specs.Tokens.{IsWord, IsNumber, signs, TokensOf, FaultOf, place_of, BeginsAt, HasReading};
ghost use Rattle.ab_lex.specs.Blanks.{Lexeme, Spaced, Spells};
ghost use Rattle.ab_lex.specs.declared.token.Token.{Token};
ghost use Rattle.ab_lex.specs.declared.token.LexFault.{LexFault};

/// Each text has one row of units and one rest that begins none.
pub fn one_row_of_units()
    ensures some { (text : List ℕ) → UnitRow text }
    ensures only { (text left other : List ℕ) (units others : List (List ℕ)) → Units text units left → Units text others other → (units ≡ others) × (left ≡ other) }
{}

/// Each text has one row of commands and one rest, and one list of items; and what is left is blank or is not.
pub fn one_splitting()
    ensures splits { (text : List ℕ) → (cs : List (List ℕ)) × (left : List ℕ) × Splits text cs left }
    ensures only { (text left other : List ℕ) (cs others : List (List ℕ)) → Splits text cs left → Splits text others other → (cs ≡ others) × (left ≡ other) }
    ensures items { (limit : ℕ) (text : List ℕ) → (is : List Item) × ItemsWithin limit text is }
    ensures only_items { (limit : ℕ) (text : List ℕ) (is others : List Item) → ItemsWithin limit text is → ItemsWithin limit text others → is ≡ others }
    ensures blank { (text : List ℕ) → HasBlankRest text ⊎ ¬ HasBlankRest text }
{}

/// A splitter awaits one list of items, whatever bytes come.
pub fn one_list_is_awaited()
    ensures some { (p : Pending) (more : List ℕ) → (is : List Item) × Awaits p more is }
    ensures only { (p : Pending) (more : List ℕ) (is others : List Item) → Awaits p more is → Awaits p more others → is ≡ others }
{}

/// Where a text is cut changes nothing: its commands are those of its first part, and then those of that part's rest
/// and what follows; and the items of a first part stay where the text goes on.
pub fn same_for_every_cut()
    ensures commands { (text more left left' : List ℕ) (cs ds : List (List ℕ)) → Splits text cs left → Splits (left ++ more) ds left' → Splits (text ++ more) (cs ++ ds) left' }
    ensures items { (limit : ℕ) (text more : List ℕ) (is js : List Item) → ItemsWithin limit text is → ItemsWithin limit (text ++ more) js → GoesOn is js }
{}

/// Each text has one list of tokens or one fault, and never both.
pub fn one_reading()
    ensures some { (text : List ℕ) → HasReading text }
    ensures tokens { (text : List ℕ) (ts others : List Token) → TokensOf text ts → TokensOf text others → ts ≡ others }
    ensures fault { (text : List ℕ) (fault other : LexFault) → FaultOf text fault → FaultOf text other → fault ≡ other }
    ensures either { (text : List ℕ) (ts : List Token) (fault : LexFault) → TokensOf text ts → FaultOf text fault → ⊥ }
{}

/// A text begins at one place: at its first token where it has tokens, and not behind its fault where it has one.
pub fn one_beginning()
    ensures only { (text : List ℕ) (start other : ℕ) → BeginsAt text start → BeginsAt text other → start ≡ other }
    ensures token { (text : List ℕ) (t : Token) (ts : List Token) → TokensOf text (t ∷ ts) → BeginsAt text t.span.start }
    ensures fault { (text : List ℕ) (start : ℕ) (fault : LexFault) → BeginsAt text start → FaultOf text fault → start ≤ place_of fault }
{}

/// Blanks and comments between tokens change none of them: written with any of them between, tokens of any form are
/// read as they are.
pub fn spacing_changes_no_token()
    ensures { (text : List ℕ) (ls : List Lexeme) → Spaced ls text → Spells text ls }
{}

/// Words, numbers and signs are ASCII; only a string may hold other bytes.
pub fn only_strings_are_more_than_ascii()
    ensures words { (c : List ℕ) → IsWord c → IsAscii c }
    ensures numbers { (c : List ℕ) → IsNumber c → IsAscii c }
    ensures signs { (c : List ℕ) → Contains signs c → IsAscii c }
{}
