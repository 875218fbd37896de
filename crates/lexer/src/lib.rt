// The tokens of one line of a script.
#![tactic(auto)]

ghost use Rattle.std.specs.Prelude.{◌≡◌, ◌<◌, ◌≤◌, ◌+◌, ◌-◌, ◌^◌, length, IfSome, IsNone, slice_range};
ghost use Rattle.std.specs.Iterator.{at_most};

mod number;

pub use number::NumberError;

#[derive(Clone, Copy, Debug, PartialEq, Eq)]
pub enum Kind<'a> {
    // Nothing is left: the line ends there, or a comment starts.
    End,
    Word,
    // What starts with a digit.
    Number(Result<u64, NumberError>),
    Equals,
    Colon,
    // What stands between two quotes; the token's text has both of them.
    Text(&'a [u8]),
    // A quote after which the line ends.
    OpenText,
    // A byte that starts nothing.
    Stray,
}

// A token: its kind, where in the line it starts, and its bytes. `End` alone has none: it stands where the search for it began,
// right behind the token before.
#[derive(Clone, Copy, Debug)]
pub struct Token<'a> {
    pub kind: Kind<'a>,
    pub start: usize,
    pub text: &'a [u8],
}

// What a line still has from a position on.
#[derive(Clone, Copy, Debug)]
pub struct Tokens<'a> {
    pub line: &'a [u8],
    pub at: usize,
    pub ghost inside: { at ≤ length line.now },
}

// Can the byte stand in a word? `.`, `-` and bytes above 127 can in none that has a meaning; they belong to it so that a
// mistake is told with the whole of what was written.
fn in_word(b: u8) -> bool {
    b.is_ascii_alphanumeric() || matches!(b, b'_' | b'.' | b'-' | 128..)
}

// The line feed is told by the lines; a carriage return is a blank.
fn is_blank(b: u8) -> bool {
    matches!(b, b' ' | b'\t' | b'\r')
}

fn blanks(rest: &[u8]) -> usize
    ensures { result ≤ length rest.now }
{
    rest.iter()
        .position(|b| !is_blank(*b))
        .unwrap_or(rest.len())
}

fn word_len(rest: &[u8]) -> usize
    ensures { result ≤ length rest.now }
{
    rest.iter().position(|b| !in_word(*b)).unwrap_or(rest.len())
}

// The text whose opening quote stands before `inside`, and its length with the quotes that are there.
fn text(inside: &[u8]) -> (Kind<'_>, usize)
    requires { length inside.now < 2 ^ 63 }
    ensures { (0 < result.1) × (result.1 ≤ length inside.now + 1) }
{
    match inside.iter().position(|b| *b == b'"') {
        Some(n) => (Kind::Text(&inside[..n]), n + 2),
        None => (Kind::OpenText, inside.len() + 1),
    }
}

// The token at the start of what is left of a line, and its length.
fn scan(rest: &[u8]) -> Option<(Kind<'_>, usize)>
    ensures { IfSome result (λ t. (0 < t.1) × (t.1 ≤ length rest.now)) }
{
    match rest {
        [] | [b'#', ..] => None,
        [b'=', ..] => Some((Kind::Equals, 1)),
        [b':', ..] => Some((Kind::Colon, 1)),
        [b'"', inside @ ..] => Some(text(inside)),
        [b'0'..=b'9', more @ ..] => {
            let n = 1 + word_len(more);
            Some((Kind::Number(number::read(&rest[..n])), n))
        }
        _ => match word_len(rest) {
            0 => Some((Kind::Stray, 1)),
            n => Some((Kind::Word, n)),
        },
    }
}

impl<'a> Tokens<'a> {
    ghost use Rattle.lexer.specs.Left.{left_of, TakesNextOrEnd, IsWithoutFeed};

    // A line, with or without its line feed.
    pub fn new(line: &'a [u8]) -> Self
        ensures start { result.at ≡ 0 }
        ensures line { IsWithoutFeed line.now result.line.now }
    {
        match line {
            [taken @ .., b'\n'] => Tokens { line: taken, at: 0 },
            _ => Tokens { line, at: 0 },
        }
    }

    // The next token, which is `End` where no more comes.
    pub fn take_or_end(&mut self) -> Token<'a>
        ensures next { TakesNextOrEnd self.old result self.new }
        ensures left { left_of self.new ≤ left_of self.old }
    {
        let end = Token {
            kind: Kind::End,
            start: self.at,
            text: &[],
        };
        self.next().unwrap_or(end)
    }

    // The next token, left where it is.
    pub fn peek(self) -> Token<'a>
        ensures { (after : Tokens) × TakesNextOrEnd self.entry result after }
    {
        let mut ahead = self;
        ahead.take_or_end()
    }
}

impl<'a> Iterator for Tokens<'a> {
    ghost use Rattle.lexer.specs.Left.{left_of, TakesNext};

    type Item = Token<'a>;

    ghost next_gives = { TakesNext };

    ghost remaining = { λ t. at_most (left_of t) };

    // It skips blanks only before a token, so that `End` stands right behind the last one.
    fn next(&mut self) -> Option<Token<'a>> {
        let line = self.line;
        let start = self.at + blanks(&line[self.at..]);
        let (kind, len) = scan(&line[start..])?;
        let end = start + len;
        self.at = end;
        Some(Token {
            kind,
            start,
            text: &line[start..end],
        })
    }
}
