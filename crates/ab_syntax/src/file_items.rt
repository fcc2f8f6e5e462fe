//! Titles and items of specification files.
ghost use Rattle.std.specs.Prelude.{◌≡◌, ℕ, IfOk, Some, option_map};
ghost use Rattle.ab_grammar.specs.Nesting.{blamed};
ghost use Rattle.ab_grammar.specs.Language.{Accepted, SyntaxAt, TooNestedAt};
ghost use Rattle.ab_grammar.specs.FileTable.{title_word as title_word_of, Names, TitleText, Goals, GoalBody, ItemForm, ItemText};
ghost use Rattle.ab_grammar.specs.FileTokens.{item_tokens};
ghost use Rattle.ab_grammar.specs.declared.file.FileKind.TheVariants.{Signature, Module};
ghost use Rattle.ab_grammar.specs.declared.Infix.TheVariants.{With};
ghost use Rattle.ab_grammar.specs.Tree.{joined};
ghost use Rattle.ab_grammar.proofs.Following.{Anything, Followed, BeforeStop};
ghost use Rattle.ab_expressions.specs.Tokens.{StandIn, tokens_from};
ghost use Rattle.ab_expressions.specs.Items.{list_of};
ghost use Rattle.ab_expressions.specs.SyntaxTrees.{tree_of};
ghost use Rattle.ab_syntax.specs.FileItems.{item_of};
ghost use Rattle.ab_syntax.specs.Faults.{place_past, nested_from};
ghost use Rattle.ab_expressions.specs.Reader.{rest, Found};

use crate::answer::answer;
use crate::command::ClauseParse;
use crate::goal_commas::see_item;
use crate::leaf::{NameForm, take};
use crate::list::{add, items};
use crate::part::{keyword, name_and, takes_word};
use crate::spec_item::{FileItem, SpecItem};
use ab_expressions::{
    Items, Kind, Parse, ParseFault, Stop, Text, close_part, new_box, place_of, read_expression,
    read_type, see_all, takes,
};
use ab_grammar::{FileKind, Infix};
use ab_lex::Token;
use ab_name::Name;
use std::alloc::{AllocError, Global};

/// The word with which a file's title begins.
fn title_word(kind: FileKind) -> &'static [u8]
    ensures { result.now ≡ title_word_of kind }
{
    match kind {
        FileKind::Signature => b"sig",
        FileKind::Module => b"module",
    }
}

/// Reads a title, its full stop included.
fn read_title(text: &Text<'_>, here: &mut usize, kind: FileKind) -> Result<Name, Stop>
    ensures { Found (TitleText kind) Anything (λ x. x) (rest text.now here.old) (rest text.now here.new) result }
{
    keyword(text, here, title_word(kind))?;
    name_and(text, here, Kind::Stop)
}

/// Reads `a, .., b`.
fn names(text: &Text<'_>, here: &mut usize) -> Result<Items<Name>, Stop>
    ensures { Found Names BeforeStop list_of (rest text.now here.old) (rest text.now here.new) result }
{
    let mut names = Vec::new(text.alloc);
    loop {
        add(&mut names, take(text, here, NameForm::Any)?)?;
        if !takes(text, here, Kind::Comma) {
            return Ok(Items::from_vec(names));
        }
    }
}

/// Reads an item of a signature without its full stop.
fn signature_item(text: &Text<'_>, here: &mut usize) -> Result<FileItem, Stop>
    ensures { Found (ItemForm Signature) BeforeStop item_of (rest text.now here.old) (rest text.now here.new) result }
{
    if takes(text, here, Kind::Type) {
        let constants = items::<Name>(text, here, Kind::Comma)?;
        let ty = read_type(text, here)?;
        return Ok(FileItem::Own(SpecItem::Typed(constants, ty)));
    }
    if takes_word(text, here, b"kind") {
        let kinds = items::<Name>(text, here, Kind::Comma);
        let declared = close_part(text, here, Kind::Type, kinds)?;
        return Ok(FileItem::Own(SpecItem::Kind(declared)));
    }
    keyword(text, here, b"accum_sig")?;
    let files = names(text, here)?;
    Ok(FileItem::Accumulation(files))
}

/// Two goals, as one.
fn both(alloc: Global, left: Parse, right: Parse) -> Result<Parse, AllocError>
    ensures { IfOk result (λ r. tree_of r ≡ joined With (tree_of left) (tree_of right)) }
{
    let place = place_of(&left);
    let left = new_box(alloc, left)?;
    let right = new_box(alloc, right)?;
    Ok(Parse::Join(Infix::With, left, right, place))
}

/// Reads `g, .., g` as one goal.
fn goals(text: &Text<'_>, here: &mut usize) -> Result<Parse, Stop>
    ensures { Found Goals BeforeStop (λ g. Some (tree_of g)) (rest text.now here.old) (rest text.now here.new) result }
{
    let mut goal = read_expression(text, here)?;
    while takes(text, here, Kind::Comma) {
        let next = read_expression(text, here)?;
        goal = both(text.alloc, goal, next)?;
    }
    Ok(goal)
}

/// Reads the goals behind a head, where there are any.
fn goal_body(text: &Text<'_>, here: &mut usize) -> Result<Option<Parse>, Stop>
    ensures { Found GoalBody BeforeStop (option_map tree_of) (rest text.now here.old) (rest text.now here.new) result }
{
    if takes(text, here, Kind::From) {
        return Ok(Some(goals(text, here)?));
    }
    Ok(None)
}

/// Reads an item of a module without its full stop.
fn module_item(text: &Text<'_>, here: &mut usize) -> Result<FileItem, Stop>
    ensures { Found (ItemForm Module) BeforeStop item_of (rest text.now here.old) (rest text.now here.new) result }
{
    if takes_word(text, here, b"accumulate") {
        let files = names(text, here)?;
        return Ok(FileItem::Accumulation(files));
    }
    let head = read_expression(text, here)?;
    let body = goal_body(text, here)?;
    let place = place_of(&head);
    Ok(FileItem::Own(SpecItem::Clause(ClauseParse { head, body, place })))
}

/// Reads an item, its full stop included.
fn read_item(text: &Text<'_>, here: &mut usize, kind: FileKind) -> Result<FileItem, Stop>
    ensures { Found (ItemText kind) Followed item_of (rest text.now here.old) (rest text.now here.new) result }
{
    match kind {
        FileKind::Signature => {
            let item = signature_item(text, here);
            close_part(text, here, Kind::Stop, item)
        }
        FileKind::Module => {
            let item = module_item(text, here);
            close_part(text, here, Kind::Stop, item)
        }
    }
}

/// Reads the title of a file, which is all of some tokens of its bytes. Places are counted from the first byte.
pub fn parse_title(
    alloc: Global,
    bytes: &[u8],
    tokens: &[Token],
    kind: FileKind,
) -> Result<Name, ParseFault>
    requires { StandIn bytes.now 0 tokens.now }
    // What is read is the one title of the tokens.
    ensures read { IfOk result (λ name. Accepted (TitleText kind) (tokens_from bytes.now 0 tokens.now) name) }
    // The first token that no title goes on with, or the end where the tokens end too early.
    ensures syntax { (place : ℕ) → result ≡ Err (ParseFault.Syntax place)
        → (i : ℕ) × SyntaxAt (TitleText kind) (tokens_from bytes.now 0 tokens.now) i × (place ≡ place_past bytes.now 0 tokens.now i) }
    // The first token that is nested above the limit.
    ensures nested { (place : ℕ) → result ≡ Err (ParseFault.TooNested place)
        → (i : ℕ) × TooNestedAt (TitleText kind) (tokens_from bytes.now 0 tokens.now) i × (place ≡ nested_from bytes.now 0 tokens.now i) }
{
    let seen = see_all(alloc, bytes, tokens, 0)?;
    let text = Text {
        alloc,
        tokens: &seen,
        end: bytes.len(),
    };
    let mut here = 0;
    let found = read_title(&text, &mut here, kind);
    answer(&text, here, here, found)
}

/// Reads an item of a file, which is all of some tokens of its bytes. Places are counted from the first byte.
pub fn parse_item(
    alloc: Global,
    bytes: &[u8],
    tokens: &[Token],
    kind: FileKind,
) -> Result<FileItem, ParseFault>
    requires { StandIn bytes.now 0 tokens.now }
    // What is read is the one item of the tokens.
    ensures read { IfOk result (λ item. Accepted (ItemText kind) (item_tokens kind (tokens_from bytes.now 0 tokens.now)) (item_of item)) }
    // The first token that no item goes on with, or the end where the tokens end too early.
    ensures syntax { (place : ℕ) → result ≡ Err (ParseFault.Syntax place)
        → (i : ℕ) × SyntaxAt (ItemText kind) (item_tokens kind (tokens_from bytes.now 0 tokens.now)) i × (place ≡ place_past bytes.now 0 tokens.now i) }
    // The first token that is nested above the limit.
    ensures nested { (place : ℕ) → result ≡ Err (ParseFault.TooNested place)
        → (i : ℕ) × TooNestedAt (ItemText kind) (item_tokens kind (tokens_from bytes.now 0 tokens.now)) i × (place ≡ place_past bytes.now 0 tokens.now (blamed (item_tokens kind (tokens_from bytes.now 0 tokens.now)) i)) }
{
    let seen = see_item(alloc, bytes, tokens, kind)?;
    let text = Text {
        alloc,
        tokens: &seen,
        end: bytes.len(),
    };
    let mut here = 0;
    let found = read_item(&text, &mut here, kind);
    answer(&text, here, here, found)
}
