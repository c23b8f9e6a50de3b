// Tokens: the parts of a text, lent and not copied.
ghost use Rattle.std.specs.Prelude.{◌≡◌, ◌≤◌, length, take, MatchOption};
ghost use Rattle.logs.specs.Tokens.{Reads, front, is_end, parts};

// Each with the place where it begins.
#[derive(Clone, Copy)]
pub enum Token<'a> {
    Field(&'a [u8], usize),
    Comma(usize),
    LineEnd(usize),
}

// The byte parts fields or ends a line.
fn is_part(b: u8) -> bool
    ensures { result ≡ parts b }
{
    b == b',' || b == b'\n'
}

// No field goes on at the front of the text.
pub(crate) fn is_end(text: &[u8]) -> bool
    ensures { result ≡ is_end text.now }
{
    match text {
        [] => true,
        [b, ..] => is_part(*b),
    }
}

// How long the field at the front of the text is.
fn field_len(text: &[u8]) -> usize
    ensures bytes { take result text.now ≡ front text.now }
    ensures within { result ≤ length text.now }
{
    text.iter().take_while(|b| !is_part(**b)).count()
}

// The token at a place, or None at the end. An empty field has no token: its comma or line end comes at once.
pub fn next_token<'a>(text: &'a [u8], at: usize) -> Option<Token<'a>>
    ensures { MatchOption result (length text.now ≤ at) (λ t. Reads text.now at t) }
{
    if at >= text.len() {
        return None;
    }
    match text[at] {
        b',' => Some(Token::Comma(at)),
        b'\n' => Some(Token::LineEnd(at)),
        _ => {
            let rest = &text[at..];
            Some(Token::Field(&rest[..field_len(rest)], at))
        }
    }
}
