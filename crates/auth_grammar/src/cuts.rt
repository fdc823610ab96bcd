//! Taking texts apart.
ghost use Rattle.std.specs.Prelude.{◌≡◌, ◌≢◌, ◌≤◌, ◌∷◌, ◌++◌, ◌==◌, ℕ, List, false, IfSome, IfNone, length};
ghost use Rattle.std.specs.List.{after_first, before_first, list_any, position_or_len};
ghost use Rattle.std.specs.Str.Lines.{strip_carriage_return};

/// What stands behind the prefix, or None where the text doesn't begin with it.
pub fn behind<'t>(text: &'t [u8], prefix: &[u8]) -> Option<&'t [u8]>
    ensures some { IfSome result (λ rest. text.now ≡ prefix.now ++ rest.now) }
    ensures none { IfNone result ((rest : List ℕ) → text.now ≢ prefix.now ++ rest) }
{
    text.strip_prefix(prefix)
}

/// What stands before the suffix, or None where the text doesn't end with it.
pub fn before<'t>(text: &'t [u8], suffix: &[u8]) -> Option<&'t [u8]>
    ensures some { IfSome result (λ rest. text.now ≡ rest.now ++ suffix.now) }
    ensures none { IfNone result ((rest : List ℕ) → text.now ≢ rest ++ suffix.now) }
{
    text.strip_suffix(suffix)
}

/// What stands before and behind the first such byte, or None where there is none.
pub fn cut_at(text: &[u8], byte: u8) -> Option<(&[u8], &[u8])>
    ensures some { IfSome result (λ parts. text.now ≡ parts.0.now ++ byte ∷ parts.1.now) }
    ensures first { IfSome result (λ parts. list_any (λ b. b == byte) parts.0.now ≡ false) }
    ensures none { IfNone result (list_any (λ b. b == byte) text.now ≡ false) }
{
    for (at, here) in text.iter().enumerate() {
        if *here == byte {
            return Some((&text[..at], &text[at + 1..]));
        }
    }
    None
}

/// How many bytes stand before the first such byte.
pub fn len_before(text: &[u8], byte: u8) -> usize
    ensures len { result ≡ position_or_len (λ b. b == byte) text.now }
    ensures bound { result ≤ length text.now }
{
    text.iter().take_while(|&&here| here != byte).count()
}

/// What stands before the first such byte, or all where there is none.
pub fn before_first(text: &[u8], byte: u8) -> &[u8]
    ensures { result.now ≡ before_first (λ b. b == byte) text.now }
{
    &text[..len_before(text, byte)]
}

/// What stands behind the first such byte, or nothing where there is none.
pub fn after_first(text: &[u8], byte: u8) -> &[u8]
    ensures { result.now ≡ after_first (λ b. b == byte) text.now }
{
    let at = len_before(text, byte);
    if at == text.len() {
        return &text[at..];
    }
    &text[at + 1..]
}

/// A line without the one CR at its end.
pub fn without_return(line: &[u8]) -> &[u8]
    ensures { result.now ≡ strip_carriage_return line.now }
{
    line.strip_suffix(b"\r").unwrap_or(line)
}
