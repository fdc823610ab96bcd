//! What a byte does at each position: the grammar's table.
ghost use Rattle.std.specs.Prelude.{◌≢◌, Bool};
ghost use Rattle.auth_grammar.specs.Positions.{Turns};

use crate::kinds::Kind;
use crate::position::{Effect, Position, Turn};

/// What a byte of this kind does at this position, where parameters or schemes may begin.
pub fn turn_at(position: Position, kind: Kind, params: bool, schemes: bool) -> Turn
    ensures { Turns position kind params schemes result }
{
    match position {
        Position::Start => at_start(kind, params, schemes),
        _ => turn_behind(position, kind),
    }
}

/// The same behind an element's first byte, whatever may begin.
pub fn turn_behind(position: Position, kind: Kind) -> Turn
    ensures { position ≢ Position.Start → (params schemes : Bool) → Turns position kind params schemes result }
{
    match position {
        Position::Start => Turn::Dead,
        Position::Word => at_word(kind),
        Position::WordSpace => at_word_space(kind),
        Position::WordWhite => at_word_white(kind),
        Position::Scheme => at_scheme(kind),
        Position::SchemeSpace => at_scheme_space(kind),
        Position::SchemeWhite => at_scheme_white(kind),
        Position::Second => at_second(kind),
        Position::SecondWhite => at_second_white(kind),
        Position::SecondEquals => at_second_equals(kind),
        Position::SecondEqualsWhite => at_second_equals_white(kind),
        Position::Token68 => at_token68(kind),
        Position::Padding => at_padding(kind),
        Position::Token68White => at_token68_white(kind),
        Position::Name => at_name(kind),
        Position::NameWhite => at_name_white(kind),
        Position::Equals => at_equals(kind),
        Position::Value => at_value(kind),
        Position::Token => at_token(kind),
        Position::Loose => at_loose(kind),
        Position::LoosePadding => at_loose_padding(kind),
        Position::Quoted => at_quoted(kind),
        Position::Escaped => at_escaped(kind),
        Position::ValueWhite => at_value_white(kind),
    }
}

/// The same before an element.
pub fn at_start(kind: Kind, params: bool, schemes: bool) -> Turn
    ensures { Turns Position.Start kind params schemes result }
{
    match kind {
        Kind::Comma => Turn::End,
        Kind::Space | Kind::Tab => Turn::Go(Position::Start, Effect::Nothing),
        Kind::Plain | Kind::Mark => {
            if schemes {
                if params {
                    Turn::Go(Position::Word, Effect::FirstWord)
                } else {
                    Turn::Go(Position::Scheme, Effect::FirstWord)
                }
            } else if params {
                Turn::Go(Position::Name, Effect::FirstWord)
            } else {
                Turn::Dead
            }
        }
        _ => Turn::Dead,
    }
}

fn at_word(kind: Kind) -> Turn
    ensures { (params schemes : Bool) → Turns Position.Word kind params schemes result }
{
    match kind {
        Kind::Comma => Turn::End,
        Kind::Space => Turn::Go(Position::WordSpace, Effect::Nothing),
        Kind::Tab => Turn::Go(Position::WordWhite, Effect::Nothing),
        Kind::Equals => Turn::Go(Position::Equals, Effect::Nothing),
        Kind::Plain | Kind::Mark => Turn::Go(Position::Word, Effect::Word),
        _ => Turn::Dead,
    }
}

fn at_word_space(kind: Kind) -> Turn
    ensures { (params schemes : Bool) → Turns Position.WordSpace kind params schemes result }
{
    match kind {
        Kind::Comma => Turn::End,
        Kind::Space => Turn::Go(Position::WordSpace, Effect::Nothing),
        Kind::Tab => Turn::Go(Position::WordWhite, Effect::Nothing),
        Kind::Equals => Turn::Go(Position::Equals, Effect::Nothing),
        Kind::Plain => Turn::Go(Position::Second, Effect::NextWord),
        Kind::Slash => Turn::Go(Position::Token68, Effect::NextWord),
        Kind::Mark => Turn::Go(Position::Name, Effect::NextWord),
        _ => Turn::Dead,
    }
}

fn at_word_white(kind: Kind) -> Turn
    ensures { (params schemes : Bool) → Turns Position.WordWhite kind params schemes result }
{
    match kind {
        Kind::Comma => Turn::End,
        Kind::Space | Kind::Tab => Turn::Go(Position::WordWhite, Effect::Nothing),
        Kind::Equals => Turn::Go(Position::Equals, Effect::Nothing),
        _ => Turn::Dead,
    }
}

fn at_scheme(kind: Kind) -> Turn
    ensures { (params schemes : Bool) → Turns Position.Scheme kind params schemes result }
{
    match kind {
        Kind::Comma => Turn::End,
        Kind::Space => Turn::Go(Position::SchemeSpace, Effect::Nothing),
        Kind::Tab => Turn::Go(Position::SchemeWhite, Effect::Nothing),
        Kind::Plain | Kind::Mark => Turn::Go(Position::Scheme, Effect::Word),
        _ => Turn::Dead,
    }
}

fn at_scheme_space(kind: Kind) -> Turn
    ensures { (params schemes : Bool) → Turns Position.SchemeSpace kind params schemes result }
{
    match kind {
        Kind::Comma => Turn::End,
        Kind::Space => Turn::Go(Position::SchemeSpace, Effect::Nothing),
        Kind::Tab => Turn::Go(Position::SchemeWhite, Effect::Nothing),
        Kind::Plain => Turn::Go(Position::Second, Effect::NextWord),
        Kind::Slash => Turn::Go(Position::Token68, Effect::NextWord),
        Kind::Mark => Turn::Go(Position::Name, Effect::NextWord),
        _ => Turn::Dead,
    }
}

fn at_scheme_white(kind: Kind) -> Turn
    ensures { (params schemes : Bool) → Turns Position.SchemeWhite kind params schemes result }
{
    match kind {
        Kind::Comma => Turn::End,
        Kind::Space | Kind::Tab => Turn::Go(Position::SchemeWhite, Effect::Nothing),
        _ => Turn::Dead,
    }
}

fn at_second(kind: Kind) -> Turn
    ensures { (params schemes : Bool) → Turns Position.Second kind params schemes result }
{
    match kind {
        Kind::Comma => Turn::End,
        Kind::Space | Kind::Tab => Turn::Go(Position::SecondWhite, Effect::Nothing),
        Kind::Equals => Turn::Go(Position::SecondEquals, Effect::Nothing),
        Kind::Plain => Turn::Go(Position::Second, Effect::Word),
        Kind::Slash => Turn::Go(Position::Token68, Effect::Word),
        Kind::Mark => Turn::Go(Position::Name, Effect::Word),
        _ => Turn::Dead,
    }
}

fn at_second_white(kind: Kind) -> Turn
    ensures { (params schemes : Bool) → Turns Position.SecondWhite kind params schemes result }
{
    match kind {
        Kind::Comma => Turn::End,
        Kind::Space | Kind::Tab => Turn::Go(Position::SecondWhite, Effect::Nothing),
        Kind::Equals => Turn::Go(Position::Equals, Effect::Nothing),
        _ => Turn::Dead,
    }
}

fn at_second_equals(kind: Kind) -> Turn
    ensures { (params schemes : Bool) → Turns Position.SecondEquals kind params schemes result }
{
    match kind {
        Kind::Comma => Turn::End,
        Kind::Space | Kind::Tab => Turn::Go(Position::SecondEqualsWhite, Effect::Nothing),
        Kind::Equals => Turn::Go(Position::Padding, Effect::LateWord),
        Kind::Plain => Turn::Go(Position::Value, Effect::FirstValue),
        Kind::Mark => Turn::Go(Position::Token, Effect::FirstValue),
        Kind::Slash => Turn::Go(Position::Loose, Effect::FirstValue),
        Kind::Quote => Turn::Go(Position::Quoted, Effect::OpenValue),
        _ => Turn::Dead,
    }
}

fn at_second_equals_white(kind: Kind) -> Turn
    ensures { (params schemes : Bool) → Turns Position.SecondEqualsWhite kind params schemes result }
{
    match kind {
        Kind::Comma => Turn::End,
        Kind::Space | Kind::Tab => Turn::Go(Position::SecondEqualsWhite, Effect::Nothing),
        Kind::Plain => Turn::Go(Position::Value, Effect::FirstValue),
        Kind::Mark => Turn::Go(Position::Token, Effect::FirstValue),
        Kind::Slash => Turn::Go(Position::Loose, Effect::FirstValue),
        Kind::Quote => Turn::Go(Position::Quoted, Effect::OpenValue),
        _ => Turn::Dead,
    }
}

fn at_token68(kind: Kind) -> Turn
    ensures { (params schemes : Bool) → Turns Position.Token68 kind params schemes result }
{
    match kind {
        Kind::Comma => Turn::End,
        Kind::Space | Kind::Tab => Turn::Go(Position::Token68White, Effect::Nothing),
        Kind::Equals => Turn::Go(Position::Padding, Effect::Word),
        Kind::Plain | Kind::Slash => Turn::Go(Position::Token68, Effect::Word),
        _ => Turn::Dead,
    }
}

fn at_padding(kind: Kind) -> Turn
    ensures { (params schemes : Bool) → Turns Position.Padding kind params schemes result }
{
    match kind {
        Kind::Comma => Turn::End,
        Kind::Space | Kind::Tab => Turn::Go(Position::Token68White, Effect::Nothing),
        Kind::Equals => Turn::Go(Position::Padding, Effect::Word),
        _ => Turn::Dead,
    }
}

fn at_token68_white(kind: Kind) -> Turn
    ensures { (params schemes : Bool) → Turns Position.Token68White kind params schemes result }
{
    match kind {
        Kind::Comma => Turn::End,
        Kind::Space | Kind::Tab => Turn::Go(Position::Token68White, Effect::Nothing),
        _ => Turn::Dead,
    }
}

fn at_name(kind: Kind) -> Turn
    ensures { (params schemes : Bool) → Turns Position.Name kind params schemes result }
{
    match kind {
        Kind::Space | Kind::Tab => Turn::Go(Position::NameWhite, Effect::Nothing),
        Kind::Equals => Turn::Go(Position::Equals, Effect::Nothing),
        Kind::Plain | Kind::Mark => Turn::Go(Position::Name, Effect::Word),
        _ => Turn::Dead,
    }
}

fn at_name_white(kind: Kind) -> Turn
    ensures { (params schemes : Bool) → Turns Position.NameWhite kind params schemes result }
{
    match kind {
        Kind::Space | Kind::Tab => Turn::Go(Position::NameWhite, Effect::Nothing),
        Kind::Equals => Turn::Go(Position::Equals, Effect::Nothing),
        _ => Turn::Dead,
    }
}

fn at_equals(kind: Kind) -> Turn
    ensures { (params schemes : Bool) → Turns Position.Equals kind params schemes result }
{
    match kind {
        Kind::Space | Kind::Tab => Turn::Go(Position::Equals, Effect::Nothing),
        Kind::Plain => Turn::Go(Position::Value, Effect::FirstValue),
        Kind::Mark => Turn::Go(Position::Token, Effect::FirstValue),
        Kind::Slash => Turn::Go(Position::Loose, Effect::FirstValue),
        Kind::Quote => Turn::Go(Position::Quoted, Effect::OpenValue),
        _ => Turn::Dead,
    }
}

fn at_value(kind: Kind) -> Turn
    ensures { (params schemes : Bool) → Turns Position.Value kind params schemes result }
{
    match kind {
        Kind::Comma => Turn::End,
        Kind::Space | Kind::Tab => Turn::Go(Position::ValueWhite, Effect::Nothing),
        Kind::Equals => Turn::Go(Position::LoosePadding, Effect::Value),
        Kind::Plain => Turn::Go(Position::Value, Effect::Value),
        Kind::Mark => Turn::Go(Position::Token, Effect::Value),
        Kind::Slash => Turn::Go(Position::Loose, Effect::Value),
        _ => Turn::Dead,
    }
}

fn at_token(kind: Kind) -> Turn
    ensures { (params schemes : Bool) → Turns Position.Token kind params schemes result }
{
    match kind {
        Kind::Comma => Turn::End,
        Kind::Space | Kind::Tab => Turn::Go(Position::ValueWhite, Effect::Nothing),
        Kind::Plain | Kind::Mark => Turn::Go(Position::Token, Effect::Value),
        _ => Turn::Dead,
    }
}

fn at_loose(kind: Kind) -> Turn
    ensures { (params schemes : Bool) → Turns Position.Loose kind params schemes result }
{
    match kind {
        Kind::Comma => Turn::End,
        Kind::Space | Kind::Tab => Turn::Go(Position::ValueWhite, Effect::Nothing),
        Kind::Equals => Turn::Go(Position::LoosePadding, Effect::Value),
        Kind::Plain | Kind::Slash => Turn::Go(Position::Loose, Effect::Value),
        _ => Turn::Dead,
    }
}

fn at_loose_padding(kind: Kind) -> Turn
    ensures { (params schemes : Bool) → Turns Position.LoosePadding kind params schemes result }
{
    match kind {
        Kind::Comma => Turn::End,
        Kind::Space | Kind::Tab => Turn::Go(Position::ValueWhite, Effect::Nothing),
        Kind::Equals => Turn::Go(Position::LoosePadding, Effect::Value),
        _ => Turn::Dead,
    }
}

fn at_quoted(kind: Kind) -> Turn
    ensures { (params schemes : Bool) → Turns Position.Quoted kind params schemes result }
{
    match kind {
        Kind::Quote => Turn::Go(Position::ValueWhite, Effect::Nothing),
        Kind::Backslash => Turn::Go(Position::Escaped, Effect::Nothing),
        Kind::Control => Turn::Dead,
        _ => Turn::Go(Position::Quoted, Effect::Value),
    }
}

fn at_escaped(kind: Kind) -> Turn
    ensures { (params schemes : Bool) → Turns Position.Escaped kind params schemes result }
{
    match kind {
        Kind::Control => Turn::Dead,
        _ => Turn::Go(Position::Quoted, Effect::Value),
    }
}

fn at_value_white(kind: Kind) -> Turn
    ensures { (params schemes : Bool) → Turns Position.ValueWhite kind params schemes result }
{
    match kind {
        Kind::Comma => Turn::End,
        Kind::Space | Kind::Tab => Turn::Go(Position::ValueWhite, Effect::Nothing),
        _ => Turn::Dead,
    }
}
