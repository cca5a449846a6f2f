//! The form of a fetch or a converter in a text: a name, and arguments in brackets. Nothing here knows a name.
ghost use Rattle.std.specs.Prelude.{◌≡◌, ◌+◌, ◌<◌, ◌≤◌, ◌==◌, length, take, drop, position, option_map, IfSome};
ghost use Rattle.std.specs.List.{list_any};
ghost use Rattle.cfg_expr.specs.Calls.{argument, quoted_at, bare_at, stop_in, put, arguments, name_len, form_in, args_of, form_of, is_blank, is_quote, ends_argument, ends_name};

/// The arguments in brackets. No fetch or converter has more than three.
#[derive(Clone, Copy)]
pub enum Args<'t> {
    /// There are no brackets.
    Bare,
    One(&'t [u8]),
    Two(&'t [u8], &'t [u8]),
    Three(&'t [u8], &'t [u8], &'t [u8]),
}

/// A name, its arguments, and what is behind them.
#[derive(Clone, Copy)]
pub struct Call<'t> {
    pub name: &'t [u8],
    pub args: Args<'t>,
    pub rest: &'t [u8],
}

/// What stands behind an argument.
#[derive(Clone, Copy)]
enum Stop {
    Comma,
    End,
}

fn is_blank(b: u8) -> bool
    ensures { result ≡ is_blank b }
{
    b == b' ' || b == b'\t'
}

fn has_blank(text: &[u8]) -> bool
    ensures { result ≡ list_any is_blank text.now }
{
    text.iter().any(|b| is_blank(*b))
}

/// A comma or `)`.
fn ends_argument(b: u8) -> bool
    ensures { result ≡ ends_argument b }
{
    b == b',' || b == b')'
}

/// `(`, a comma or `]`.
fn ends_name(b: u8) -> bool
    ensures { result ≡ ends_name b }
{
    b == b'(' || b == b',' || b == b']'
}

/// Where a byte stands first.
pub fn first_of(byte: u8, text: &[u8]) -> Option<usize>
    ensures place { result ≡ position (λ b. b == byte) text.now }
    ensures within { IfSome result (λ at. at < length text.now) }
{
    text.iter().position(|b| *b == byte)
}

fn argument_end(text: &[u8]) -> Option<usize>
    ensures place { result ≡ position ends_argument text.now }
    ensures within { IfSome result (λ at. at < length text.now) }
{
    text.iter().position(|b| ends_argument(*b))
}

fn name_end(text: &[u8]) -> Option<usize>
    ensures place { result ≡ position ends_name text.now }
    ensures within { IfSome result (λ at. at < length text.now) }
{
    text.iter().position(|b| ends_name(*b))
}

/// What is in front of a byte, and what is behind it.
pub fn around(at: usize, text: &[u8]) -> (&[u8], &[u8])
    requires { at < length text.now }
    ensures front { result.0.now ≡ take at text.now }
    ensures behind { result.1.now ≡ drop (at + 1) text.now }
{
    (&text[..at], &text[at + 1..])
}

/// Up to the next single quote.
fn quoted(text: &[u8]) -> Option<(&[u8], &[u8])>
    ensures { option_map (λ found. (found.0.now, found.1.now)) result ≡ quoted_at text.now (position is_quote text.now) }
{
    match first_of(b'\'', text) {
        Some(at) => Some(around(at, text)),
        None => None,
    }
}

/// Up to a comma or `)`, without a blank.
fn bare(text: &[u8]) -> Option<(&[u8], &[u8])>
    ensures { option_map (λ found. (found.0.now, found.1.now)) result ≡ bare_at text.now (position ends_argument text.now) }
{
    let Some(at) = argument_end(text) else {
        return None;
    };
    let (arg, rest) = text.split_at(at);
    if has_blank(arg) {
        return None;
    }
    Some((arg, rest))
}

/// An argument at the front, and what follows it.
#[tactic(auto, unfolding(crate::specs::Calls::argument))]
fn argument(text: &[u8]) -> Option<(&[u8], &[u8])>
    ensures { option_map (λ found. (found.0.now, found.1.now)) result ≡ argument text.now }
{
    let (first, rest) = text.split_first()?;
    if *first == b'\'' {
        quoted(rest)
    } else {
        bare(text)
    }
}

#[tactic(auto, unfolding(crate::specs::Calls::stop_in))]
fn stop_in(text: &[u8]) -> Option<(Stop, &[u8])>
    ensures { option_map (λ found. (found.0, found.1.now)) result ≡ stop_in text.now }
{
    let (first, rest) = text.split_first()?;
    match *first {
        b',' => Some((Stop::Comma, rest)),
        b')' => Some((Stop::End, rest)),
        _ => None,
    }
}

/// The third argument, behind two.
fn third<'t>(first: &'t [u8], second: &'t [u8], text: &'t [u8]) -> Option<(Args<'t>, &'t [u8])>
    ensures { option_map (λ found. (args_of found.0, found.1.now)) result
        ≡ option_map (λ others. put first.now (put second.now others)) (arguments 1 text.now) }
{
    let (arg, rest) = argument(text)?;
    match stop_in(rest)? {
        (Stop::End, rest) => Some((Args::Three(first, second, arg), rest)),
        (Stop::Comma, _) => None,
    }
}

/// The second argument and those behind it.
fn second<'t>(first: &'t [u8], text: &'t [u8]) -> Option<(Args<'t>, &'t [u8])>
    ensures { option_map (λ found. (args_of found.0, found.1.now)) result
        ≡ option_map (put first.now) (arguments 2 text.now) }
{
    let (arg, rest) = argument(text)?;
    match stop_in(rest)? {
        (Stop::End, rest) => Some((Args::Two(first, arg), rest)),
        (Stop::Comma, rest) => third(first, arg, rest),
    }
}

/// The arguments up to `)`.
fn arguments(text: &[u8]) -> Option<(Args<'_>, &[u8])>
    ensures { option_map (λ found. (args_of found.0, found.1.now)) result ≡ arguments 3 text.now }
{
    let (arg, rest) = argument(text)?;
    match stop_in(rest)? {
        (Stop::End, rest) => Some((Args::One(arg), rest)),
        (Stop::Comma, rest) => second(arg, rest),
    }
}

fn name_len(text: &[u8]) -> usize
    ensures len { result ≡ name_len text.now }
    ensures within { result ≤ length text.now }
{
    match name_end(text) {
        Some(at) => at,
        None => text.len(),
    }
}

/// What stands at the front of a text: a name up to `(`, `,` or `]`, and where `(` follows, one to three arguments up to
/// `)`. None where the arguments are malformed or there are more of them.
#[tactic(auto, unfolding(crate::specs::Calls::form_in))]
pub fn call_in(text: &[u8]) -> Option<Call<'_>>
    ensures { option_map form_of result ≡ form_in text.now }
{
    let at = name_len(text);
    let (name, behind) = text.split_at(at);
    match behind.split_first() {
        Some((b'(', inner)) => {
            let (args, rest) = arguments(inner)?;
            Some(Call { name, args, rest })
        }
        _ => Some(Call {
            name,
            args: Args::Bare,
            rest: behind,
        }),
    }
}
