//! Reading a site from its files.
ghost use Rattle.std.specs.Prelude.{◌≡◌, ◌≤◌};
ghost use Rattle.auth_io.specs.declared.files.FileAnswer.{FileAnswer as Answer};
ghost use Rattle.authd.specs.Loading.{IsKept, IsSpaces, IsStore, LoadsSite, LoadsStore, ReadsFile, text_in};
ghost use Rattle.origin_core.specs.Outside.{files_state};

use crate::command::Place;
use crate::failure::{Failure, Fault, Refusal};
use auth_decide::Site;
use auth_grammar::Octets;
use auth_io::{FileAnswer, Files};
use cred_store::Store;
use origin_core::FILE_LIMIT;
use spaces_map::Spaces;
use std::alloc::Global;

/// The text in an answer, or why there is none.
fn text_in(absent: Refusal, answer: FileAnswer) -> Result<Octets, Failure>
    ensures { result ≡ text_in absent answer }
{
    match answer {
        FileAnswer::Found(text) => Ok(text),
        FileAnswer::Absent => Err(Failure::Refused(absent)),
        FileAnswer::TooLarge => Err(Failure::Refused(Refusal::FileTooLong)),
        FileAnswer::Failed => Err(Failure::Fault(Fault::File)),
        FileAnswer::OutOfMemory => Err(Failure::OutOfMemory),
    }
}

/// The text of a file, where it is there.
pub(crate) fn text_of<F: Files>(
    files: &mut F,
    name: &[u8],
    absent: Refusal,
) -> Result<Octets, Failure>
    ensures reads { let at = files_state F.contents F.asked F.faults in
        (answer : Answer) × ReadsFile (at files.old) (at files.new) name.now answer × (result ≡ text_in absent answer) }
    ensures later { F.faults files.old ≤ F.faults files.new }
{
    text_in(absent, files.read(name, FILE_LIMIT))
}

/// The store in a text, where the text is there.
fn store_in(alloc: Global, text: Result<Octets, Failure>) -> Result<Store, Failure>
    ensures { IsStore text result }
{
    match text {
        Ok(text) => Ok(Store::read(alloc, text.bytes())?),
        Err(failure) => Err(failure),
    }
}

/// The store in an answer. Where there is no file it has no entries.
fn store_or_new(alloc: Global, answer: FileAnswer) -> Result<Store, Failure>
    ensures { IsKept answer result }
{
    match answer {
        FileAnswer::Absent => Ok(Store::new(alloc)),
        answer => store_in(alloc, text_in(Refusal::StoreAbsent, answer)),
    }
}

/// The store in a file that may be absent.
pub(crate) fn kept_store<F: Files>(
    alloc: Global,
    files: &mut F,
    name: &[u8],
) -> Result<Store, Failure>
    ensures reads { let at = files_state F.contents F.asked F.faults in
        (answer : Answer) × ReadsFile (at files.old) (at files.new) name.now answer × IsKept answer result }
    ensures later { F.faults files.old ≤ F.faults files.new }
{
    store_or_new(alloc, files.read(name, FILE_LIMIT))
}

/// The store in a file.
pub(crate) fn store_of<F: Files>(
    alloc: Global,
    files: &mut F,
    name: &[u8],
) -> Result<Store, Failure>
    ensures reads { LoadsStore (files_state F.contents F.asked F.faults) files.old files.new name.now result }
    ensures later { F.faults files.old ≤ F.faults files.new }
{
    store_in(alloc, text_of(files, name, Refusal::StoreAbsent))
}

/// The spaces in a file.
fn spaces_of<F: Files>(alloc: Global, files: &mut F, name: &[u8]) -> Result<Spaces, Failure>
    ensures { let at = files_state F.contents F.asked F.faults in
        (answer : Answer) × ReadsFile (at files.old) (at files.new) name.now answer
        × IsSpaces (text_in Refusal.SpacesAbsent answer) result }
{
    let text = text_of(files, name, Refusal::SpacesAbsent)?;
    Ok(Spaces::read(alloc, text.bytes())?)
}

/// The site at a place. The file of the spaces is read once the text of the store was.
pub(crate) fn site_of<F: Files>(
    alloc: Global,
    files: &mut F,
    place: &Place<'_>,
) -> Result<Site, Failure>
    ensures { LoadsSite
        (files_state F.contents F.asked F.faults) files.old files.new place.now.store.now place.now.spaces.now place.now.root.now result }
{
    let store = store_of(alloc, files, place.store)?;
    let spaces = spaces_of(alloc, files, place.spaces)?;
    let root = Octets::of(alloc, place.root)?;
    Ok(Site {
        store,
        spaces,
        root,
    })
}
