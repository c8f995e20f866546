//! The members of a structure by name.

ghost use Rattle.std.specs.Prelude.{◌≡◌, [], OnOk, OnErr};
ghost use Rattle.plm_decl.specs.Inner.Members.{members_of, member_in, with_member};

use crate::layout::Member;
use indexmap::IndexMap;
use std::alloc::{AllocError, Global};

/// Names of members in normal form, and the first member of each name.
#[derive(Drop)]
pub struct MemberTable {
    members: IndexMap<Vec<u8>, Member>,
}

impl MemberTable {
    /// A table with no member in it. It takes no memory.
    pub fn new(alloc: Global) -> MemberTable
        ensures { members_of result ≡ [] }
    {
        MemberTable {
            members: IndexMap::new(alloc),
        }
    }

    /// The first member of this name.
    pub fn find(&self, name: &[u8]) -> Option<Member>
        ensures { result ≡ member_in name.now (members_of self.now) }
    {
        self.members.get(name).copied()
    }

    /// Puts a member after the others, unless its name is there.
    pub fn add(&mut self, name: Vec<u8>, member: Member) -> Result<(), AllocError>
        ensures ok { OnOk result (members_of self.new ≡ with_member name.items member (members_of self.old)) }
        ensures err { OnErr result (members_of self.new ≡ members_of self.old) }
    {
        if self.members.contains_key(name.as_slice()) {
            return Ok(());
        }
        self.members.insert(name, member)?;
        Ok(())
    }
}
