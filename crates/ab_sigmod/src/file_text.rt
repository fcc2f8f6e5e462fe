//! The text of one file: its tokens, its title, and its items one by one.
ghost use Rattle.std.specs.Prelude.{◌≡◌};
ghost use Rattle.ab_sigmod.specs.FileNames.{IsTitle};
ghost use Rattle.ab_sigmod.specs.Texts.{IsUsable, IsTokenized, IsOpened, IsNextItem};

use crate::text::FileText;
use ab_grammar::FileKind;
use ab_lex::{LexFault, tokens};
use ab_name::Name;
use ab_syntax::{FileItem, ParseFault, parse_item, parse_title, sentence_len};
use std::alloc::{AllocError, Global};

/// Why the text of a file is not read.
#[derive(Drop)]
pub(crate) enum TextStop {
    Syntax(usize),
    TooNested(usize),
    WrongTitle,
    Memory(AllocError),
}

impl From<ParseFault> for TextStop {
    ghost use Rattle.std.specs.Prelude.{◌≡◌};
    ghost use Rattle.ab_sigmod.specs.Texts.{stop_of};

    ghost from_gives = { λ fault stop. stop ≡ stop_of fault };

    fn from(fault: ParseFault) -> TextStop {
        match fault {
            ParseFault::Syntax(place) => TextStop::Syntax(place),
            ParseFault::TooNested(place) => TextStop::TooNested(place),
            ParseFault::Memory(error) => TextStop::Memory(error),
        }
    }
}

/// The name of a file without its folder.
fn without_folder(base: &[u8]) -> &[u8]
    ensures { IsTitle base.now result.now }
{
    let mut start = base.len();
    while start > 0 && base[start - 1] != b'/' {
        start -= 1;
    }
    &base[start..]
}

/// The text of these bytes, none of whose tokens was read.
fn text_of(alloc: Global, bytes: Vec<u8>) -> Result<FileText, TextStop>
    ensures { IsTokenized bytes.items result }
{
    match tokens(alloc, &bytes) {
        Ok(tokens) => Ok(FileText {
            bytes,
            tokens,
            here: 0,
        }),
        Err(fault) => Err(match fault {
            LexFault::BadByte(place) | LexFault::OpenString(place) | LexFault::OpenComment(place) =>
                TextStop::Syntax(place),
            LexFault::Memory(error) => TextStop::Memory(error),
        }),
    }
}

/// The text of a file, of which the title was read.
pub(crate) fn open_text(
    alloc: Global,
    bytes: Vec<u8>,
    base: &Name,
    kind: FileKind,
) -> Result<FileText, TextStop>
    ensures { IsOpened bytes.items (record { base = base.now; kind = kind }) result }
{
    let mut text = text_of(alloc, bytes)?;
    let len = sentence_len(&text.bytes, &text.tokens);
    let title = parse_title(alloc, &text.bytes, &text.tokens[..len], kind)?;
    if title.as_str().as_bytes() != without_folder(base.as_str().as_bytes()) {
        return Err(TextStop::WrongTitle);
    }
    text.here = len;
    Ok(text)
}

/// The next item, if there is one.
pub(crate) fn next_item(
    alloc: Global,
    text: &mut FileText,
    kind: FileKind,
) -> Result<Option<FileItem>, ParseFault>
    requires { IsUsable text.old }
    ensures item { IsNextItem kind text.old text.new result }
    ensures usable { IsUsable text.new }
    ensures bytes { text.new.bytes ≡ text.old.bytes }
    ensures tokens { text.new.tokens ≡ text.old.tokens }
{
    let rest = &text.tokens[text.here..];
    if rest.is_empty() {
        return Ok(None);
    }
    let len = sentence_len(&text.bytes, rest);
    let item = parse_item(alloc, &text.bytes, &rest[..len], kind)?;
    text.here += len;
    Ok(Some(item))
}
