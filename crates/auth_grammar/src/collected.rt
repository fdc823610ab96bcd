//! What a reader has collected of a text's elements.
ghost use Rattle.std.specs.Prelude.{◌≡◌, [], IfOk, OnOk, option_map};
ghost use Rattle.auth_grammar.specs.Collecting.{add_element, begun, begun_of, finished, is_open, pushed, takes_param, takes_scheme, with_param};

use crate::elements::Element;
use crate::grammar::Grammar;
use crate::groups::{Group, Grouped, Placed};
use crate::octets::OutOfMemory;
use crate::sequence::Sequence;
use std::alloc::Global;
use std::mem;

/// How many parameters credentials of Digest have at most, but for unknown ones (RFC 7616 section 3.4).
const USUAL_PARAMS: usize = 12;

/// What a reader has collected. A last item is apart while parameters may come behind it.
#[derive(Drop)]
pub enum Collected {
    /// parameters alone
    Bare(Sequence<Placed>),
    /// any number of items
    Many(Sequence<Group>, Option<Group>),
    /// one item at most
    One(Option<Group>),
}

impl Group {
    /// Whether a parameter may come behind it.
    pub fn takes_param(&self) -> bool
        ensures { result ≡ is_open self.now }
    {
        matches!(self, Group::WithParams(_, _))
    }

    /// Adds a parameter to the item, if it takes one.
    fn add_param(&mut self, placed: Placed) -> Result<(), OutOfMemory>
        ensures { OnOk result (self.new ≡ with_param placed self.old) }
    {
        match self {
            Group::WithParams(_, params) => params.push(placed),
            Group::WithToken68(_, _) => Ok(()),
        }
    }
}

/// Adds a parameter to the last item, if it is there and takes one.
fn add_last_param(last: &mut Option<Group>, placed: Placed) -> Result<(), OutOfMemory>
    ensures { OnOk result (last.new ≡ option_map (with_param placed) last.old) }
{
    match last {
        Some(group) => group.add_param(placed),
        None => Ok(()),
    }
}

impl Collected {
    /// Nothing yet.
    pub fn new(alloc: Global, grammar: Grammar) -> Collected
        ensures { result ≡ begun_of grammar }
    {
        match grammar {
            Grammar::Challenges => Collected::Many(Sequence::new(alloc), None),
            Grammar::Credentials => Collected::One(None),
            Grammar::Params => Collected::Bare(Sequence::new(alloc)),
        }
    }

    /// Whether a parameter may come next.
    pub fn takes_param(&self) -> bool
        ensures { result ≡ takes_param self.now }
    {
        match self {
            Collected::Bare(_) => true,
            Collected::Many(_, Some(last)) | Collected::One(Some(last)) => last.takes_param(),
            _ => false,
        }
    }

    /// Whether a scheme may come next.
    pub fn takes_scheme(&self) -> bool
        ensures { result ≡ takes_scheme self.now }
    {
        matches!(self, Collected::Many(_, _) | Collected::One(None))
    }

    /// Adds an element, which may come next.
    pub fn add(&mut self, alloc: Global, element: Element) -> Result<(), OutOfMemory>
        ensures { OnOk result (self.new ≡ add_element self.old element) }
    {
        match element {
            Element::Blank => Ok(()),
            Element::Scheme(scheme) => {
                self.begin(Group::WithParams(scheme, Sequence::new(alloc)))
            }
            Element::SchemeToken68(scheme, token68) => {
                self.begin(Group::WithToken68(scheme, token68))
            }
            Element::SchemeParam(scheme, at, param) => {
                let mut params = self.begun_params(alloc)?;
                params.push(Placed { at, param })?;
                self.begin(Group::WithParams(scheme, params))
            }
            Element::Further(at, param) => self.push(Placed { at, param }),
        }
    }

    /// No parameters yet, with memory for those of usual credentials where no other item may come.
    fn begun_params(&self, alloc: Global) -> Result<Sequence<Placed>, OutOfMemory>
        ensures { IfOk result (λ params. params ≡ []) }
    {
        match self {
            Collected::One(_) => Sequence::with_capacity(alloc, USUAL_PARAMS),
            _ => Ok(Sequence::new(alloc)),
        }
    }

    /// Begins an item.
    fn begin(&mut self, group: Group) -> Result<(), OutOfMemory>
        ensures { OnOk result (self.new ≡ begun self.old group) }
    {
        let collected = mem::replace(self, Collected::One(None));
        *self = collected.begun(group)?;
        Ok(())
    }

    /// With one item more.
    fn begun(self, group: Group) -> Result<Collected, OutOfMemory>
        ensures { IfOk result (λ next. next ≡ begun self group) }
    {
        match self {
            Collected::Bare(params) => Ok(Collected::Bare(params)),
            Collected::Many(mut groups, last) => {
                if let Some(last) = last {
                    groups.push(last)?;
                }
                Ok(Collected::Many(groups, Some(group)))
            }
            Collected::One(_) => Ok(Collected::One(Some(group))),
        }
    }

    /// Adds a parameter.
    fn push(&mut self, placed: Placed) -> Result<(), OutOfMemory>
        ensures { OnOk result (self.new ≡ pushed self.old placed) }
    {
        match self {
            Collected::Bare(params) => params.push(placed),
            Collected::Many(_, last) => add_last_param(last, placed),
            Collected::One(last) => add_last_param(last, placed),
        }
    }

    /// What a whole text spells, or None where it lacks its one item.
    pub fn finish(self, alloc: Global) -> Result<Option<Grouped>, OutOfMemory>
        ensures { IfOk result (λ x. x ≡ finished self) }
    {
        let mut params = Sequence::new(alloc);
        let mut groups = Sequence::new(alloc);
        match self {
            Collected::Bare(all) => params = all,
            Collected::Many(all, last) => {
                groups = all;
                if let Some(last) = last {
                    groups.push(last)?;
                }
            }
            Collected::One(Some(last)) => groups.push(last)?,
            Collected::One(None) => return Ok(None),
        }
        Ok(Some(Grouped { params, groups }))
    }
}
