//! The index: works with what finds them.
ghost use Rattle.std.specs.Option.{option_copied};
ghost use Rattle.std.specs.Prelude.{◌≡◌, [], false, true, None, Some, OnErr, OnOk};
ghost use Rattle.wm_index.specs.Entries.{adding_tags, by_id, by_name, by_tag, changed_at, has_seq, has_unidentified, identified, keeping_tags, unnamed, with_entry, without};

use crate::adding::{add_work, identify_work, remove_work};
use crate::groups::{Groups, numbers_at};
use crate::tagging::{tag_work, unname_work, untag_work};
use crate::work::Work;
use indexmap::IndexMap;
use std::alloc::{AllocError, Global};
use std::collections::BTreeMap;
use std::marker::Model;
use uuid::Uuid;
use wm_collections::Text;

/// Works by their numbers, with what finds them by their ids, their unique names and their tags. A
/// contract sees it as the list of its works in ascending number. A name or a tag that no work has
/// any more takes no memory.
#[derive(Debug, Drop)]
pub struct Index {
    works: BTreeMap<u64, Work>,
    ids: IndexMap<Uuid, u64>,
    names: Groups,
    tags: Groups,
    alloc: Global,
}

impl Model for Index {
    ghost use Rattle.std.specs.Prelude.{List};
    ghost use Rattle.wm_index.specs.Entries.{Entry};
    ghost use Rattle.wm_index.specs.Groups.{has, ids_of};
    ghost use Rattle.wm_index.specs.Works.{entries_of, IsKept};

    ghost Value = { List Entry };

    ghost view = { λ i. entries_of i.works.entries };

    ghost invariant = { λ i. IsKept i.works.entries (ids_of i.ids) (has i.names) (has i.tags) };
}

impl Index {
    /// The index without a work, which takes no memory.
    pub fn new(alloc: Global) -> Index
        ensures { result ≡ [] }
    {
        Index {
            works: BTreeMap::new(alloc),
            ids: IndexMap::new(alloc),
            names: BTreeMap::new(alloc),
            tags: BTreeMap::new(alloc),
            alloc,
        }
    }

    /// Adds a work, with copies of its texts. Where memory is refused, the index is as it was.
    pub fn insert(
        &mut self,
        seq: u64,
        id: Uuid,
        name: Option<&str>,
        tags: &[Text],
    ) -> Result<(), AllocError>
        requires new_seq { has_seq self.old seq ≡ false }
        requires new_id { by_id self.old id ≡ None }
        ensures ok { OnOk result
            (self.new ≡ with_entry (record { seq = seq; id = Some id; name = option_copied name.entry; tags = tags.now }) self.old) }
        ensures err { OnErr result (self.new ≡ self.old) }
    {
        self.prepare(seq, name, tags)?;
        self.identify(seq, id);
        Ok(())
    }

    /// Adds a work that has no id yet, with copies of its texts. Where memory is refused, the index
    /// is as it was.
    pub fn prepare(&mut self, seq: u64, name: Option<&str>, tags: &[Text]) -> Result<(), AllocError>
        requires { has_seq self.old seq ≡ false }
        ensures ok { OnOk result
            (self.new ≡ with_entry (record { seq = seq; id = None; name = option_copied name.entry; tags = tags.now }) self.old) }
        ensures err { OnErr result (self.new ≡ self.old) }
    {
        let work = Work::new(self.alloc, name, tags)?;
        add_work(
            self.alloc,
            &mut self.works,
            &mut self.ids,
            &mut self.names,
            &mut self.tags,
            seq,
            work,
        )
    }

    /// Gives a work that has no id yet its id, which no other work has. It takes no memory.
    pub fn identify(&mut self, seq: u64, id: Uuid)
        requires unidentified { has_unidentified self.old seq ≡ true }
        requires new_id { by_id self.old id ≡ None }
        ensures { self.new ≡ changed_at (identified id) seq self.old }
    {
        identify_work(&mut self.works, &mut self.ids, seq, id);
    }

    /// Takes a work away. It takes no memory.
    pub fn remove(&mut self, seq: u64)
        requires { has_seq self.old seq ≡ true }
        ensures { self.new ≡ without seq self.old }
    {
        remove_work(
            &mut self.works,
            &mut self.ids,
            &mut self.names,
            &mut self.tags,
            seq,
        );
    }

    /// Takes the unique name of a work away, where it has one. It takes no memory.
    pub fn unname(&mut self, seq: u64)
        requires { has_seq self.old seq ≡ true }
        ensures { self.new ≡ changed_at unnamed seq self.old }
    {
        unname_work(&mut self.works, &mut self.names, seq);
    }

    /// Gives a work these tags besides its own. Where memory is refused, the index is as it was.
    pub fn add_tags(&mut self, seq: u64, tags: &[Text]) -> Result<(), AllocError>
        requires { has_seq self.old seq ≡ true }
        ensures ok { OnOk result (self.new ≡ changed_at (adding_tags tags.now) seq self.old) }
        ensures err { OnErr result (self.new ≡ self.old) }
    {
        tag_work(self.alloc, &mut self.works, &mut self.tags, seq, tags)
    }

    /// Leaves a work only those of its tags that are among these. It takes no memory.
    pub fn keep_tags(&mut self, seq: u64, tags: &[Text])
        requires { has_seq self.old seq ≡ true }
        ensures { self.new ≡ changed_at (keeping_tags tags.now) seq self.old }
    {
        untag_work(&mut self.works, &mut self.tags, seq, tags);
    }

    /// Whether there is a work of this number. It takes no memory.
    pub fn has(&self, seq: u64) -> bool
        ensures { result ≡ has_seq self.now seq }
    {
        self.works.contains_key(&seq)
    }

    /// The number of the work of an id; none where no work has it. It takes no memory.
    pub fn by_id(&self, id: &Uuid) -> Option<u64>
        ensures { result ≡ by_id self.now id.now }
    {
        self.ids.get(id).copied()
    }

    /// The numbers of the works of a unique name, ascending. It takes no memory.
    pub fn by_name(&self, name: &str) -> &[u64]
        ensures { result.now ≡ by_name self.now name.now }
    {
        numbers_at(&self.names, name)
    }

    /// The numbers of the works with a tag, ascending. It takes no memory.
    pub fn by_tag(&self, tag: &str) -> &[u64]
        ensures { result.now ≡ by_tag self.now tag.now }
    {
        numbers_at(&self.tags, tag)
    }
}
