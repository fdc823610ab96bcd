//! Where a reader stands in an element, and what a byte does there.

/// Where a reader stands in an element. Where a text can still be read in two ways, a position stands for both.
#[derive(Clone, Copy, Debug, PartialEq, Eq)]
pub enum Position {
    /// nothing has come but white space
    Start,
    /// in a scheme or a name
    Word,
    /// after a scheme or a name, and spaces alone
    WordSpace,
    /// after a scheme or a name, and other white space
    WordWhite,
    /// in a scheme
    Scheme,
    /// after a scheme, and spaces alone
    SchemeSpace,
    /// after a scheme, and other white space
    SchemeWhite,
    /// behind a scheme, in a token68 or a name
    Second,
    /// behind a scheme, after a token68 or a name
    SecondWhite,
    /// behind a scheme, after a token68 with one `=`, or a name and its `=`
    SecondEquals,
    /// the same, and white space
    SecondEqualsWhite,
    /// in a token68
    Token68,
    /// in the `=` of a token68
    Padding,
    /// after a token68
    Token68White,
    /// in a name
    Name,
    /// after a name
    NameWhite,
    /// after the `=` behind a name
    Equals,
    /// in a value, a token or loose
    Value,
    /// in a value that is a token
    Token,
    /// in a loose value
    Loose,
    /// in the `=` of a loose value
    LoosePadding,
    /// in quotes
    Quoted,
    /// in quotes, after a backslash
    Escaped,
    /// after a value
    ValueWhite,
}

/// What is kept of a byte.
#[derive(Clone, Copy, Debug, PartialEq, Eq)]
pub enum Effect {
    Nothing,
    /// The byte begins the element's first word.
    FirstWord,
    /// The word was a scheme, and the byte begins the next.
    NextWord,
    /// The byte goes to the word.
    Word,
    /// An `=` that was passed over goes to the word, and then this byte.
    LateWord,
    /// A value begins, with nothing in it.
    OpenValue,
    /// The byte begins a value.
    FirstValue,
    /// The byte goes to the value.
    Value,
}

/// What a byte does.
#[derive(Clone, Copy, Debug, PartialEq, Eq)]
pub enum Turn {
    /// No text of the grammar goes on so.
    Dead,
    /// A comma ends the element.
    End,
    /// The element goes on at that position.
    Go(Position, Effect),
}
