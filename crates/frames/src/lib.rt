#![tactic(auto)]
// Inputs of several parts: each stands behind a line with its length.
ghost use Rattle.std.specs.Prelude.{◌≡◌};
ghost use Rattle.std.specs.Option.{option_map};
ghost use Rattle.frames.specs.Frames.{header_from, first_frame};

mod frames;

pub use frames::Frames;

// The length that the first line says, and what follows that line. None where another byte stands among the digits, the number is
// too large, or no line ends. As a loop: the look goes no further than the byte that decides.
fn header(input: &[u8]) -> Option<(usize, &[u8])>
    ensures { option_map (λ h. (h.0, h.1.now)) result ≡ header_from 0 input.now }
{
    let mut len = 0usize;
    for (i, b) in input.iter().enumerate() {
        if *b == b'\n' {
            return Some((len, &input[i + 1..]));
        }
        if !b.is_ascii_digit() {
            return None;
        }
        len = len.checked_mul(10)?.checked_add((b - b'0') as usize)?;
    }
    None
}

// The first part of the input, and what follows it. None where no line with a length comes first, or less follows than it says.
fn next_frame(input: &[u8]) -> Option<(&[u8], &[u8])>
    ensures { option_map (λ p. (p.0.now, p.1.now)) result ≡ first_frame input.now }
{
    let (len, rest) = header(input)?;
    if rest.len() < len {
        return None;
    }
    Some((&rest[..len], &rest[len..]))
}
