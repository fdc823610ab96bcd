//! How far a text goes on, without memory.
ghost use Rattle.std.specs.Prelude.{◌≡◌, ◌∷◌, ◌++◌, ℕ, List, [], length};
ghost use Rattle.auth_grammar.specs.declared.grammar.Grammar.{Grammar};
ghost use Rattle.auth_grammar.specs.declared.groups.Grouped.{Grouped};
ghost use Rattle.auth_grammar.specs.Items.{Spells};
ghost use Rattle.auth_grammar.specs.Reach.{IsReach};
ghost use Rattle.auth_grammar.specs.Walks.{Leads, Stands, Walked, made_at, walker_after, walker_of};

use crate::grammar::Grammar;
use crate::kinds::kind_at;
use crate::position::{Position, Turn};
use crate::turns::turn_at;

/// What an element makes.
#[derive(Clone, Copy, Debug, PartialEq, Eq)]
pub enum Made {
    Nothing,
    /// an item or a parameter, behind which a parameter may come
    Open,
    /// an item with a token68
    Closed,
}

/// A reader that keeps nothing but what may come next.
#[derive(Clone, Copy, Debug, PartialEq, Eq)]
pub struct Walker {
    pub position: Position,
    /// whether a parameter may begin
    pub params: bool,
    /// whether a scheme may begin
    pub schemes: bool,
    /// whether any number of items may come
    pub many: bool,
}

/// What the element that ends at a position makes.
fn made_at(position: Position) -> Made
    ensures { result ≡ made_at position }
{
    match position {
        Position::Start => Made::Nothing,
        Position::Second
        | Position::SecondWhite
        | Position::SecondEquals
        | Position::SecondEqualsWhite
        | Position::Token68
        | Position::Padding
        | Position::Token68White => Made::Closed,
        _ => Made::Open,
    }
}

impl Walker {
    /// A walker before the first byte.
    pub fn new(grammar: Grammar) -> Walker
        ensures { result ≡ walker_of grammar }
    {
        let (params, schemes, many) = match grammar {
            Grammar::Challenges => (false, true, true),
            Grammar::Credentials => (false, true, false),
            Grammar::Params => (true, false, false),
        };
        Walker {
            position: Position::Start,
            params,
            schemes,
            many,
        }
    }

    /// Where a byte leads, or None where no text goes on so.
    fn step(self, b: u8) -> Option<Walker>
        ensures { (grammar : Grammar) (fed : List ℕ) → Stands grammar self fed → Leads grammar (fed ++ b ∷ []) result }
    {
        match turn_at(self.position, kind_at(b), self.params, self.schemes) {
            Turn::Dead => None,
            Turn::Go(position, _) => Some(Walker { position, ..self }),
            Turn::End => Some(self.ended()),
        }
    }

    /// After the end of an element.
    fn ended(self) -> Walker
        ensures { result ≡ walker_after (made_at self.position) self }
    {
        let position = Position::Start;
        match made_at(self.position) {
            Made::Nothing => Walker { position, ..self },
            Made::Open => Walker {
                position,
                params: true,
                schemes: self.many,
                many: self.many,
            },
            Made::Closed => Walker {
                position,
                params: false,
                schemes: self.many,
                many: self.many,
            },
        }
    }

    /// Where a piece leads, or the place in it of the byte with which no text goes on.
    pub fn walk(self, piece: &[u8]) -> Result<Walker, usize>
        ensures { (grammar : Grammar) (fed : List ℕ) → Stands grammar self fed → Walked grammar fed piece.now result }
    {
        let mut walker = self;
        for (i, b) in piece.iter().enumerate() {
            match walker.step(*b) {
                Some(next) => walker = next,
                None => return Err(i),
            }
        }
        Ok(walker)
    }
}

/// The length of the longest prefix with which some text of the grammar begins. It takes no memory.
pub fn reach(grammar: Grammar, text: &[u8]) -> usize
    ensures reach { IsReach (Spells grammar) text.now result }
    // A text spells at most one list.
    ensures one { (x y : Grouped) → Spells grammar text.now x → Spells grammar text.now y → x ≡ y }
{
    match Walker::new(grammar).walk(text) {
        Ok(_) => text.len(),
        Err(at) => at,
    }
}
