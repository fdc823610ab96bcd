//! The words of the command line.
ghost use Rattle.std.specs.Prelude.{◌≡◌, IfOk, map, string_bytes};
ghost use Rattle.std.specs.List.{list_all};
ghost use Rattle.std.specs.Option.{option_map};
ghost use Rattle.authd.specs.Commands.{listening_of, meaning, parts_of, proxying_of};
ghost use Rattle.authd.specs.Words.{by_name, crew_in, check_with, command_of, import_with, is_word, listen_at, listen_with, listening_in, migrate_with, named, passwd_with, pipe_with, proxy_at, proxy_with, proxying_in, show_with, switch_with};

use crate::account::Account;
use crate::crew::{Crew, Listening, MOST_CONNECTIONS, MOST_WORKERS, Proxying};
use crate::drill_plan::DrillPlan;
use crate::numbers::small_number_in;
use auth_grammar::{Octets, OutOfMemory};
use auth_io::is_address;
use scram_proof::LEAST_ITERATIONS;
use std::alloc::Global;

/// Where a site stands: the names of the files of its store and of its spaces, and the folder of its files.
#[derive(Clone, Copy)]
pub(crate) struct Place<'w> {
    pub(crate) store: &'w [u8],
    pub(crate) spaces: &'w [u8],
    pub(crate) root: &'w [u8],
}

/// Whose secrets are meant: the name of the file of the store, a name and a realm.
#[derive(Clone, Copy)]
pub(crate) struct Holder<'w> {
    pub(crate) store: &'w [u8],
    pub(crate) name: &'w [u8],
    pub(crate) realm: &'w [u8],
}

/// What the words of the command line ask for.
#[derive(Clone, Copy)]
pub(crate) enum Command<'w> {
    Usage,
    Show,
    Pipe(Place<'w>),
    Check { store: &'w [u8], spaces: &'w [u8] },
    Import { store: &'w [u8], htdigest: &'w [u8] },
    Passwd(Account<'w>),
    Switch { holder: Holder<'w>, on: bool },
    Migrate { store: &'w [u8] },
    Drill(DrillPlan),
    Listen(Listening<'w>),
    Proxy(Proxying<'w>),
}

impl<'w> Command<'w> {
    /// What `listen` asks for, where this is `listen`.
    pub(crate) fn listening(self) -> Option<Listening<'w>>
        ensures { option_map listening_of result ≡ listening_in (meaning self.entry) }
    {
        match self {
            Command::Listen(listening) => Some(listening),
            Command::Usage
            | Command::Show
            | Command::Pipe(_)
            | Command::Check { .. }
            | Command::Import { .. }
            | Command::Passwd(_)
            | Command::Switch { .. }
            | Command::Migrate { .. }
            | Command::Drill(_)
            | Command::Proxy(_) => None,
        }
    }

    /// What `proxy` asks for, where this is `proxy`.
    pub(crate) fn proxying(self) -> Option<Proxying<'w>>
        ensures { option_map proxying_of result ≡ proxying_in (meaning self.entry) }
    {
        match self {
            Command::Proxy(proxying) => Some(proxying),
            Command::Usage
            | Command::Show
            | Command::Pipe(_)
            | Command::Check { .. }
            | Command::Import { .. }
            | Command::Passwd(_)
            | Command::Switch { .. }
            | Command::Migrate { .. }
            | Command::Drill(_)
            | Command::Listen(_) => None,
        }
    }
}

/// A word isn't empty and doesn't begin with `-`.
pub(crate) fn is_word(word: &[u8]) -> bool
    ensures { result ≡ is_word word.now }
{
    match word.first() {
        Some(first) => *first != b'-',
        None => false,
    }
}

fn are_words(words: &[String]) -> bool
    ensures { result ≡ list_all (λ word. is_word (string_bytes word)) words.now }
{
    words.iter().all(|word| is_word(word.as_bytes()))
}

fn show_with(words: &[String]) -> Command<'_>
    ensures { meaning result ≡ show_with (map string_bytes words.now) }
{
    match words {
        [] => Command::Show,
        _ => Command::Usage,
    }
}

fn pipe_with(words: &[String]) -> Command<'_>
    ensures { meaning result ≡ pipe_with (map string_bytes words.now) }
{
    match words {
        [store, spaces, root] => Command::Pipe(Place {
            store: store.as_bytes(),
            spaces: spaces.as_bytes(),
            root: root.as_bytes(),
        }),
        _ => Command::Usage,
    }
}

fn check_with(words: &[String]) -> Command<'_>
    ensures { meaning result ≡ check_with (map string_bytes words.now) }
{
    match words {
        [store, spaces] => Command::Check {
            store: store.as_bytes(),
            spaces: spaces.as_bytes(),
        },
        _ => Command::Usage,
    }
}

fn import_with(words: &[String]) -> Command<'_>
    ensures { meaning result ≡ import_with (map string_bytes words.now) }
{
    match words {
        [store, htdigest] => Command::Import {
            store: store.as_bytes(),
            htdigest: htdigest.as_bytes(),
        },
        _ => Command::Usage,
    }
}

fn passwd_with(words: &[String]) -> Command<'_>
    ensures { meaning result ≡ passwd_with (map string_bytes words.now) }
{
    match words {
        [store, name, realm, kind] => Command::Passwd(Account {
            store: store.as_bytes(),
            name: name.as_bytes(),
            realm: realm.as_bytes(),
            kind: kind.as_bytes(),
            rounds: LEAST_ITERATIONS,
        }),
        _ => Command::Usage,
    }
}

fn switch_with(on: bool, words: &[String]) -> Command<'_>
    ensures { meaning result ≡ switch_with on (map string_bytes words.now) }
{
    match words {
        [store, name, realm] => Command::Switch {
            holder: Holder {
                store: store.as_bytes(),
                name: name.as_bytes(),
                realm: realm.as_bytes(),
            },
            on,
        },
        _ => Command::Usage,
    }
}

fn migrate_with(words: &[String]) -> Command<'_>
    ensures { meaning result ≡ migrate_with (map string_bytes words.now) }
{
    match words {
        [store] => Command::Migrate {
            store: store.as_bytes(),
        },
        _ => Command::Usage,
    }
}

/// `listen` at this place, where the other words are an address and two numbers.
fn listen_at<'w>(
    place: Place<'w>,
    address: &'w str,
    workers: &[u8],
    connections: &[u8],
) -> Command<'w>
    ensures { meaning result
        ≡ listen_at place.entry.store.now place.entry.spaces.now place.entry.root.now address.now workers.now connections.now }
{
    if !is_address(address.as_bytes()) {
        return Command::Usage;
    }
    let workers = small_number_in(1, MOST_WORKERS, workers);
    let connections = small_number_in(1, MOST_CONNECTIONS, connections);
    match (workers, connections) {
        (Some(workers), Some(connections)) => Command::Listen(Listening {
            place,
            address,
            workers,
            connections,
        }),
        _ => Command::Usage,
    }
}

fn listen_with(words: &[String]) -> Command<'_>
    ensures { meaning result ≡ listen_with (map string_bytes words.now) }
{
    match words {
        [store, spaces, root, address, workers, connections] => {
            let place = Place {
                store: store.as_bytes(),
                spaces: spaces.as_bytes(),
                root: root.as_bytes(),
            };
            listen_at(
                place,
                address.as_str(),
                workers.as_bytes(),
                connections.as_bytes(),
            )
        }
        _ => Command::Usage,
    }
}

/// `proxy` by these files, where the other words are an address and two numbers.
fn proxy_at<'w>(
    store: &'w [u8],
    spaces: &'w [u8],
    address: &'w str,
    workers: &[u8],
    connections: &[u8],
) -> Command<'w>
    ensures { meaning result ≡ proxy_at store.now spaces.now address.now workers.now connections.now }
{
    if !is_address(address.as_bytes()) {
        return Command::Usage;
    }
    let workers = small_number_in(1, MOST_WORKERS, workers);
    let connections = small_number_in(1, MOST_CONNECTIONS, connections);
    match (workers, connections) {
        (Some(workers), Some(connections)) => Command::Proxy(Proxying {
            store,
            spaces,
            address,
            workers,
            connections,
        }),
        _ => Command::Usage,
    }
}

fn proxy_with(words: &[String]) -> Command<'_>
    ensures { meaning result ≡ proxy_with (map string_bytes words.now) }
{
    match words {
        [store, spaces, address, workers, connections] => proxy_at(
            store.as_bytes(),
            spaces.as_bytes(),
            address.as_str(),
            workers.as_bytes(),
            connections.as_bytes(),
        ),
        _ => Command::Usage,
    }
}

/// The command of this name, with exactly its words.
fn named<'w>(name: &[u8], words: &'w [String]) -> Command<'w>
    ensures { meaning result ≡ named name.now (map string_bytes words.now) }
{
    if name == b"show".as_slice() {
        show_with(words)
    } else if name == b"pipe".as_slice() {
        pipe_with(words)
    } else if name == b"check".as_slice() {
        check_with(words)
    } else if name == b"import".as_slice() {
        import_with(words)
    } else if name == b"passwd".as_slice() {
        passwd_with(words)
    } else if name == b"disable".as_slice() {
        switch_with(false, words)
    } else if name == b"enable".as_slice() {
        switch_with(true, words)
    } else if name == b"migrate".as_slice() {
        migrate_with(words)
    } else if name == b"listen".as_slice() {
        listen_with(words)
    } else if name == b"proxy".as_slice() {
        proxy_with(words)
    } else {
        Command::Usage
    }
}

/// The first word is the name.
fn by_name(words: &[String]) -> Command<'_>
    ensures { meaning result ≡ by_name (map string_bytes words.now) }
{
    match words {
        [name, words @ ..] => named(name.as_bytes(), words),
        [] => Command::Usage,
    }
}

/// The command that these words ask for: its name, and then exactly its words.
pub(crate) fn command_of(words: &[String]) -> Command<'_>
    ensures { meaning result ≡ command_of (map string_bytes words.now) }
{
    if are_words(words) {
        by_name(words)
    } else {
        Command::Usage
    }
}

/// What `main` makes for these words, which don't include the program's name. There is none exactly where they are no
/// words of `listen` or `proxy`.
pub fn crew_of(alloc: Global, words: &Vec<String>) -> Result<Option<Crew>, OutOfMemory>
    ensures { IfOk result (λ crew. option_map parts_of crew ≡ crew_in (command_of (map string_bytes words.now.items))) }
{
    match command_of(words.as_slice()) {
        Command::Listen(listening) => Ok(Some(Crew {
            proxy: false,
            workers: listening.workers,
            address: Octets::of(alloc, listening.address.as_bytes())?,
        })),
        Command::Proxy(proxying) => Ok(Some(Crew {
            proxy: true,
            workers: proxying.workers,
            address: Octets::of(alloc, proxying.address.as_bytes())?,
        })),
        _ => Ok(None),
    }
}
