//! The empty lines in front of a head, and how many lines there are.
ghost use Rattle.std.specs.Prelude.{◌≡◌, ◌≤◌, length, drop, count_by};
ghost use Rattle.h1_head.specs.Stream.{behind};
ghost use Rattle.h1_head.specs.Decides.{is_line_feed};

/// How many bytes the empty line in front takes, or 0 where there is none.
#[tactic(auto, using(crate::proofs::Fronts::front_steps))]
fn empty_line(bytes: &[u8]) -> usize
    ensures within { result ≤ length bytes.now }
    ensures step { behind (drop result bytes.now) ≡ behind bytes.now }
    ensures stop { result ≡ 0 → behind bytes.now ≡ bytes.now }
{
    if !bytes.is_empty() && bytes[0] == b'\n' {
        1
    } else if bytes.len() >= 2 && bytes[0] == b'\r' && bytes[1] == b'\n' {
        2
    } else {
        0
    }
}

/// How many bytes the empty lines in front take (RFC 9112 section 2.2).
pub fn empty_lines(window: &[u8]) -> usize
    ensures within { result ≤ length window.now }
    ensures behind { drop result window.now ≡ behind window.now }
    ensures alone { behind (drop result window.now) ≡ drop result window.now }
{
    let mut at = 0;
    loop {
        let step = empty_line(&window[at..]);
        if step == 0 {
            return at;
        }
        at += step;
    }
}

/// How many line feeds there are.
pub fn line_feeds(text: &[u8]) -> usize
    ensures { result ≡ count_by is_line_feed text.now }
{
    text.iter().filter(|b| **b == b'\n').count()
}
