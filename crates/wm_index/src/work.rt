//! What is kept of a work beside its number.
ghost use Rattle.std.specs.Option.{option_copied};
ghost use Rattle.std.specs.Prelude.{◌≡◌, filter, not, None, IfOk, IsTrue, OnErr, OnOk};
ghost use Rattle.wm_index.specs.Entries.{has_tag};
ghost use Rattle.wm_index.specs.Works.{keeping, nameless, with_id, with_tags};

use std::alloc::{AllocError, Global};
use std::marker::Model;
use uuid::Uuid;
use wm_collections::{Items, Replica, Text};

/// The id of a work and its unique name, if any, and its tags. A contract sees it as the record of its fields.
#[derive(Debug, Drop)]
pub struct Work {
    id: Option<Uuid>,
    name: Option<Text>,
    tags: Vec<Text>,
}

impl Model for Work {
    ghost use Rattle.wm_index.specs.Works.{Kept};

    ghost Value = { Kept };

    ghost view = { λ w. record { id = w.id; name = w.name; tags = w.tags.items } };
}

/// A copy of a text that may be there.
fn copy_of(alloc: Global, text: Option<&str>) -> Result<Option<Text>, AllocError>
    ensures { IfOk result (λ copy. copy ≡ option_copied text.entry) }
{
    match text {
        Some(text) => Ok(Some(Text::from_str(alloc, text)?)),
        None => Ok(None),
    }
}

/// Copies of texts.
fn copies_of(alloc: Global, texts: &[Text]) -> Result<Vec<Text>, AllocError>
    ensures { IfOk result (λ copies. copies.items ≡ texts.now) }
{
    let mut copies = Vec::new(alloc);
    for text in texts {
        copies.push(text.replica(alloc)?)?;
    }
    Ok(copies)
}

/// Whether a tag is one of these.
pub(crate) fn has_tag(tags: &[Text], tag: &Text) -> bool
    ensures { result ≡ has_tag tags.now tag.now }
{
    tags.iter().any(|own| own == tag)
}

/// Whether two lists of tags are the same.
pub(crate) fn are_same(own: &[Text], tags: &[Text]) -> bool
    ensures { IsTrue result → own.now ≡ tags.now }
{
    own == tags
}

impl Work {
    /// A work of these texts, which it copies. It has no id yet.
    pub(crate) fn new(alloc: Global, name: Option<&str>, tags: &[Text]) -> Result<Work, AllocError>
        ensures { IfOk result (λ work. work ≡ record { id = None; name = option_copied name.entry; tags = tags.now }) }
    {
        Ok(Work {
            id: None,
            name: copy_of(alloc, name)?,
            tags: copies_of(alloc, tags)?,
        })
    }

    pub(crate) fn id(&self) -> Option<Uuid>
        ensures { result ≡ self.now.id }
    {
        self.id
    }

    /// Gives it its id.
    pub(crate) fn identify(&mut self, id: Uuid)
        ensures { self.new ≡ with_id id self.old }
    {
        self.id = Some(id);
    }

    pub(crate) fn name(&self) -> Option<&str>
        ensures { option_copied result ≡ self.now.name }
    {
        match &self.name {
            Some(name) => Some(name.as_str()),
            None => None,
        }
    }

    pub(crate) fn tags(&self) -> &[Text]
        ensures { result.now ≡ self.now.tags }
    {
        self.tags.as_slice()
    }

    /// Takes its name away.
    pub(crate) fn unname(&mut self)
        ensures { self.new ≡ nameless self.old }
    {
        self.name = None;
    }

    /// Those of these tags that it hasn't.
    pub(crate) fn missing(&self, alloc: Global, tags: &[Text]) -> Result<Vec<Text>, AllocError>
        ensures { IfOk result (λ missing. missing.items
            ≡ filter (λ tag. not (has_tag self.now.tags tag)) tags.now) }
    {
        let mut missing = Vec::new(alloc);
        if are_same(self.tags.as_slice(), tags) {
            return Ok(missing);
        }
        for tag in tags {
            if !has_tag(self.tags.as_slice(), tag) {
                missing.push(tag.replica(alloc)?)?;
            }
        }
        Ok(missing)
    }

    /// Gives it more tags. Where memory is refused, all are as they were.
    pub(crate) fn append(&mut self, tags: &mut Vec<Text>) -> Result<(), AllocError>
        ensures ok { OnOk result (self.new ≡ with_tags tags.old.items self.old) }
        ensures err { OnErr result (self.new ≡ self.old) }
        ensures tags { OnErr result (tags.new.items ≡ tags.old.items) }
    {
        self.tags.append(tags)
    }

    /// Leaves it only those of its tags that are among these.
    pub(crate) fn keep(&mut self, tags: &[Text])
        ensures { self.new ≡ keeping tags.now self.old }
    {
        if are_same(self.tags.as_slice(), tags) {
            return;
        }
        self.tags.retain(|own| has_tag(tags, own));
    }
}
