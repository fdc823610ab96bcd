//! The options of the command line.
ghost use Rattle.std.specs.Prelude.{◌≡◌, ◌≢◌, ◌≤◌, ◌∷◌, [], IfSome, length, map, string_bytes};
ghost use Rattle.drill.specs.declared.drilling.TheConstants.{MOST_STEPS};
ghost use Rattle.authd.specs.Commands.{meaning};
ghost use Rattle.authd.specs.Options.{asked_for, asked_of_others, drill_of, drill_with, is_option, option_number, rounds_in, seed_in, steps_in, takes_rounds, with_option};

use crate::account::Account;
use crate::command::{Command, command_of, is_word};
use crate::drill_plan::DrillPlan;
use auth_grammar::{behind, number_in};
use drill::MOST_STEPS;
use scram_proof::{LEAST_ITERATIONS, MOST_ITERATIONS};

/// What the words ask for, the command's name first. An option stands at any place behind it, and only once.
pub(crate) fn asked_for(words: &[String]) -> Command<'_>
    ensures { meaning result ≡ asked_for (map string_bytes words.now) }
{
    match words {
        [name, options @ ..] => {
            if name.as_bytes() == b"drill".as_slice() {
                drill_with(options)
            } else {
                asked_of_others(words)
            }
        }
        [] => Command::Usage,
    }
}

/// `drill` with its two options.
fn drill_with(options: &[String]) -> Command<'_>
    ensures { meaning result ≡ drill_with (map string_bytes options.now) }
{
    match options {
        [] | [_] => Command::Usage,
        [a, b] => drill_of(a.as_bytes(), b.as_bytes()),
        [_, _, _, ..] => Command::Usage,
    }
}

/// `drill` with these options.
fn drill_of<'w>(a: &[u8], b: &[u8]) -> Command<'w>
    ensures { meaning result ≡ drill_of a.now b.now }
{
    let seed = seed_in(a).or(seed_in(b));
    let steps = steps_in(a).or(steps_in(b));
    match (seed, steps) {
        (Some(seed), Some(steps)) => Command::Drill(DrillPlan { seed, steps }),
        _ => Command::Usage,
    }
}

/// The seed that an option says.
fn seed_in(option: &[u8]) -> Option<u64>
    ensures { result ≡ seed_in option.now }
{
    option_number(b"--seed=", 0, u64::MAX, option)
}

/// The number of steps that an option says.
fn steps_in(option: &[u8]) -> Option<u32>
    ensures steps { result ≡ steps_in option.now }
    ensures few { IfSome result (λ steps. steps ≤ MOST_STEPS) }
{
    match option_number(b"--steps=", 1, u64::from(MOST_STEPS), option) {
        Some(steps) => Some(steps as u32),
        None => None,
    }
}

/// What words that aren't those of `drill` ask for.
fn asked_of_others(words: &[String]) -> Command<'_>
    ensures { meaning result ≡ asked_of_others (map string_bytes words.now) }
{
    match words {
        [command, a, b, c, d, e] => asked_of_six(
            words,
            command.as_bytes(),
            a.as_bytes(),
            b.as_bytes(),
            c.as_bytes(),
            d.as_bytes(),
            e.as_bytes(),
        ),
        _ => asked_without_option(words),
    }
}

/// The same of another number of words than six, which have no option.
fn asked_without_option(words: &[String]) -> Command<'_>
    requires { length words.now ≢ 6 }
    ensures { meaning result ≡ asked_of_others (map string_bytes words.now) }
{
    command_of(words)
}

/// The same of six words.
fn asked_of_six<'w>(
    words: &'w [String],
    command: &'w [u8],
    a: &'w [u8],
    b: &'w [u8],
    c: &'w [u8],
    d: &'w [u8],
    e: &'w [u8],
) -> Command<'w>
    requires { map string_bytes words.now ≡ command.now ∷ a.now ∷ b.now ∷ c.now ∷ d.now ∷ e.now ∷ [] }
    ensures { meaning result ≡ asked_of_others (map string_bytes words.now) }
{
    if is_option(a) {
        return with_option(a, command, b, c, d, e);
    }
    if is_option(b) {
        return with_option(b, command, a, c, d, e);
    }
    if is_option(c) {
        return with_option(c, command, a, b, d, e);
    }
    if is_option(d) {
        return with_option(d, command, a, b, c, e);
    }
    if is_option(e) {
        return with_option(e, command, a, b, c, d);
    }
    command_of(words)
}

/// An option begins with `-`.
fn is_option(word: &[u8]) -> bool
    ensures { result ≡ is_option word.now }
{
    match word.first() {
        Some(first) => *first == b'-',
        None => false,
    }
}

/// The command with its one option, which stands before or between these words.
fn with_option<'w>(
    option: &[u8],
    command: &[u8],
    store: &'w [u8],
    name: &'w [u8],
    realm: &'w [u8],
    kind: &'w [u8],
) -> Command<'w>
    ensures { meaning result ≡ with_option option.now (command.now ∷ store.now ∷ name.now ∷ realm.now ∷ kind.now ∷ []) }
{
    if !takes_rounds(command, store, name, realm, kind) {
        return Command::Usage;
    }
    match rounds_in(option) {
        Some(rounds) => Command::Passwd(Account {
            store,
            name,
            realm,
            kind,
            rounds,
        }),
        None => Command::Usage,
    }
}

/// Whether the words set a secret that is made by a count of iterations.
fn takes_rounds(command: &[u8], store: &[u8], name: &[u8], realm: &[u8], kind: &[u8]) -> bool
    ensures { result ≡ takes_rounds command.now store.now name.now realm.now kind.now }
{
    is_word(command)
        && is_word(store)
        && is_word(name)
        && is_word(realm)
        && is_word(kind)
        && command == b"passwd".as_slice()
        && kind == b"scram-sha-256".as_slice()
}

/// The count of iterations that an option says.
fn rounds_in(option: &[u8]) -> Option<u32>
    ensures count { result ≡ rounds_in option.now }
    ensures some { IfSome result (λ rounds. 1 ≤ rounds) }
{
    match option_number(
        b"--rounds=",
        u64::from(LEAST_ITERATIONS),
        u64::from(MOST_ITERATIONS),
        option,
    ) {
        Some(rounds) => Some(rounds as u32),
        None => None,
    }
}

/// The number that an option says behind its name, where it is from `least` to `most`.
fn option_number(name: &[u8], least: u64, most: u64, option: &[u8]) -> Option<u64>
    ensures number { result ≡ option_number name.now least most option.now }
    ensures within { IfSome result (λ number. (least ≤ number) × (number ≤ most)) }
{
    match behind(option, name) {
        Some(digits) => number_in(least, most, digits),
        None => None,
    }
}
