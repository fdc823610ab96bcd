//! Bytes that go where the one before them went.
ghost use Rattle.std.specs.Prelude.{◌≡◌, ◌≤◌, IsTrue, length, take};
ghost use Rattle.std.specs.List.{list_all, prefix_len};
ghost use Rattle.auth_grammar.specs.Kinds.{is_plain, is_quotable, is_token, is_token68, kind_of};
ghost use Rattle.auth_grammar.specs.Positions.{stays, value_stays, word_stays};

use crate::kinds::kind_at;
use crate::position::{Effect, Position};

/// How many bytes go where the byte before them went, by that effect at that position.
pub fn run_len(effect: Effect, position: Position, rest: &[u8]) -> usize
    ensures bound { result ≤ length rest.now }
    ensures stays { IsTrue (list_all (λ b. stays effect position (kind_of b)) (take result rest.now)) }
{
    match effect {
        Effect::Nothing => 0,
        Effect::FirstWord | Effect::NextWord | Effect::Word | Effect::LateWord => {
            word_run_len(position, rest)
        }
        Effect::OpenValue | Effect::FirstValue | Effect::Value => value_run_len(position, rest),
    }
}

/// How many bytes go on with the word.
fn word_run_len(position: Position, rest: &[u8]) -> usize
    ensures bound { result ≤ length rest.now }
    ensures stays { IsTrue (list_all (λ b. word_stays position (kind_of b)) (take result rest.now)) }
{
    match position {
        Position::Word | Position::Scheme | Position::Name => token_len(rest),
        Position::Second => plain_len(rest),
        Position::Token68 => token68_len(rest),
        _ => 0,
    }
}

/// How many bytes go on with the value.
fn value_run_len(position: Position, rest: &[u8]) -> usize
    ensures bound { result ≤ length rest.now }
    ensures stays { IsTrue (list_all (λ b. value_stays position (kind_of b)) (take result rest.now)) }
{
    match position {
        Position::Value => plain_len(rest),
        Position::Token => token_len(rest),
        Position::Loose => token68_len(rest),
        Position::Quoted => quotable_len(rest),
        _ => 0,
    }
}

/// How many bytes are of tokens and of token68s.
fn plain_len(text: &[u8]) -> usize
    ensures len { result ≡ prefix_len (λ b. is_plain (kind_of b)) text.now }
    ensures bound { result ≤ length text.now }
{
    text.iter().take_while(|b| kind_at(**b).is_plain()).count()
}

/// How many bytes are of a token.
fn token_len(text: &[u8]) -> usize
    ensures len { result ≡ prefix_len (λ b. is_token (kind_of b)) text.now }
    ensures bound { result ≤ length text.now }
{
    text.iter().take_while(|b| kind_at(**b).is_token()).count()
}

/// How many bytes are of a token68, before its `=`.
pub fn token68_len(text: &[u8]) -> usize
    ensures len { result ≡ prefix_len (λ b. is_token68 (kind_of b)) text.now }
    ensures bound { result ≤ length text.now }
{
    text.iter()
        .take_while(|b| kind_at(**b).is_token68())
        .count()
}

/// How many bytes stand for themselves in quotes.
fn quotable_len(text: &[u8]) -> usize
    ensures len { result ≡ prefix_len (λ b. is_quotable (kind_of b)) text.now }
    ensures bound { result ≤ length text.now }
{
    text.iter()
        .take_while(|b| kind_at(**b).is_quotable())
        .count()
}
