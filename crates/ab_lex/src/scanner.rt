//! The scanner: finds where commands, strings and comments end, one byte at a time.
//!
//! All that it remembers of the bytes behind it is a [`Scan`], so a text can come in pieces that are cut
//! anywhere, also between the two bytes of a comment's sign.

ghost use Rattle.std.specs.Prelude.{◌≡◌, ◌<◌, ◌≤◌, ◌+◌, ◌^◌, length, drop, MatchOption};
ghost use Rattle.ab_lex.specs.Units.{is_blank as is_blank_byte};
ghost use Rattle.ab_lex.specs.Scanner.{step, ends, depth, from_plain, from_block, behind, past as past_from, run, fresh, keeps_blank as keeps_blank_in, after_byte, blank_from};

/// Where a scanner stands. A number is how many block comments are open around the innermost.
#[derive(Clone, Copy)]
pub(crate) enum Mode {
    Plain,
    /// Behind a `/` that may open a comment.
    Slash,
    Line,
    Quoted,
    Block(usize),
    BlockSlash(usize),
    BlockStar(usize),
}

/// How far the scan of a text has come behind the last command's end.
#[derive(Clone, Copy)]
pub(crate) struct Scan {
    pub mode: Mode,
    /// Nothing but blanks and comments has come so far.
    pub blank: bool,
}

/// The scan behind a command's end.
pub(crate) const FRESH: Scan = Scan {
    mode: Mode::Plain,
    blank: true,
};

/// A space, a tab, a carriage return or a line feed.
pub(crate) fn is_blank(byte: u8) -> bool
    ensures { result ≡ is_blank_byte byte }
{
    matches!(byte, b' ' | b'\t' | b'\r' | b'\n')
}

/// How many block comments are open.
pub(crate) fn open_comments(mode: Mode) -> usize
    requires { depth mode < 2 ^ 64 }
    ensures { result ≡ depth mode }
{
    match mode {
        Mode::Block(around) | Mode::BlockSlash(around) | Mode::BlockStar(around) => around + 1,
        _ => 0,
    }
}

/// Whether the byte ends a command.
fn is_end(mode: Mode, byte: u8) -> bool
    ensures { result ≡ ends mode byte }
{
    match mode {
        Mode::Plain | Mode::Slash => byte == b'.',
        _ => false,
    }
}

fn plain_after(byte: u8) -> Mode
    ensures { result ≡ from_plain byte }
{
    match byte {
        b'%' => Mode::Line,
        b'"' => Mode::Quoted,
        b'/' => Mode::Slash,
        _ => Mode::Plain,
    }
}

fn block_after(around: usize, byte: u8) -> Mode
    ensures { result ≡ from_block around byte }
{
    match byte {
        b'/' => Mode::BlockSlash(around),
        b'*' => Mode::BlockStar(around),
        _ => Mode::Block(around),
    }
}

/// The mode behind one more byte.
fn mode_after(mode: Mode, byte: u8) -> Mode
    requires { depth mode < 2 ^ 64 }
    ensures { result ≡ step mode byte }
{
    match mode {
        Mode::Plain => plain_after(byte),
        Mode::Slash if byte == b'*' => Mode::Block(0),
        Mode::Slash => plain_after(byte),
        Mode::Line if byte == b'\n' => Mode::Plain,
        Mode::Line => Mode::Line,
        Mode::Quoted if byte == b'"' => Mode::Plain,
        Mode::Quoted => Mode::Quoted,
        Mode::Block(around) => block_after(around, byte),
        Mode::BlockSlash(around) if byte == b'*' => Mode::Block(around + 1),
        Mode::BlockSlash(around) => block_after(around, byte),
        Mode::BlockStar(0) if byte == b'/' => Mode::Plain,
        Mode::BlockStar(around) if byte == b'/' => Mode::Block(around - 1),
        Mode::BlockStar(around) => block_after(around, byte),
    }
}

fn keeps_blank(mode: Mode, byte: u8) -> bool
    ensures { result ≡ keeps_blank_in mode byte }
{
    match mode {
        Mode::Plain => matches!(byte, b' ' | b'\t' | b'\r' | b'\n' | b'%' | b'/'),
        Mode::Slash => byte == b'*',
        _ => true,
    }
}

/// The scan behind one more byte, which ends no command.
fn scan_after(scan: Scan, byte: u8) -> Scan
    requires { depth scan.mode < 2 ^ 64 }
    ensures { result ≡ after_byte scan byte }
{
    Scan {
        mode: mode_after(scan.mode, byte),
        blank: scan.blank && keeps_blank(scan.mode, byte),
    }
}

/// Goes on with the scan, up to the end of a command: how many bytes there are up to it.
pub(crate) fn command_end(scan: &mut Scan, bytes: &[u8]) -> Option<usize>
    requires { depth scan.old.mode + length bytes.now < 2 ^ 64 }
    ensures found { MatchOption result
        ((behind scan.old.mode bytes.now ≡ None) × (scan.new ≡ run scan.old bytes.now))
        (λ n. (n ≤ length bytes.now) × (behind scan.old.mode bytes.now ≡ Some (drop n bytes.now)) × (scan.new ≡ fresh)) }
    ensures depth { depth scan.new.mode ≤ depth scan.old.mode + length bytes.now }
{
    for (i, byte) in bytes.iter().enumerate() {
        if is_end(scan.mode, *byte) {
            *scan = FRESH;
            return Some(i + 1);
        }
        *scan = scan_after(*scan, *byte);
    }
    None
}

/// Whether nothing but blanks and whole comments stands behind the last command, from this scan on.
pub(crate) fn ends_blank(mut scan: Scan, bytes: &[u8]) -> bool
    requires { depth scan.mode + length bytes.now < 2 ^ 64 }
    ensures { result ≡ blank_from scan bytes.now }
{
    for byte in bytes {
        scan = if is_end(scan.mode, *byte) {
            FRESH
        } else {
            scan_after(scan, *byte)
        };
    }
    scan.blank && matches!(scan.mode, Mode::Plain | Mode::Line)
}

/// How many bytes there are up to the end of the string or comment that the mode is in.
pub(crate) fn unit_end(mut mode: Mode, bytes: &[u8]) -> Option<usize>
    requires room { depth mode + length bytes.now < 2 ^ 64 }
    requires inside { mode ≡ Mode.Plain → ⊥ }
    ensures { MatchOption result
        (past_from mode bytes.now ≡ None)
        (λ n. (n ≤ length bytes.now) × (past_from mode bytes.now ≡ Some (drop n bytes.now))) }
{
    for (i, byte) in bytes.iter().enumerate() {
        mode = mode_after(mode, *byte);
        if matches!(mode, Mode::Plain) {
            return Some(i + 1);
        }
    }
    None
}
