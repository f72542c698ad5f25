// What datacentres give for a read.
ghost use Rattle.std.specs.Prelude.{◌≡◌, [], ◌∷◌, ◌++◌, IfOk, OnOk, OnErr};
ghost use Rattle.std.specs.Option.{option_copied};
ghost use Rattle.rc_protocol.specs.Client.{best_grant};
ghost use Rattle.rc_protocol.specs.Client as client;
ghost use Rattle.rc_read.specs.Reads.{done_by};

use rc_ids::{DcSet, NoMemory, Val, Version};
use rc_read::{Grant, ReadDone};
use std::alloc::Global;
use std::marker::Model;

/// A copy of the value, if there is one.
pub fn copied_value(value: &Option<Val>) -> Result<Option<Val>, NoMemory>
    ensures { IfOk result (λ v. v ≡ value.now) }
{
    match value {
        Some(value) => Ok(Some(value.copy()?)),
        None => Ok(None),
    }
}

fn copied(value: Option<&Val>) -> Result<Option<Val>, NoMemory>
    ensures { IfOk result (λ copy. copy ≡ option_copied value.entry) }
{
    match value {
        Some(value) => Ok(Some(value.copy()?)),
        None => Ok(None),
    }
}

/// The datacentres that gave these.
fn givers(grants: &[Grant]) -> DcSet
    ensures { result ≡ client.granted_by grants.now }
{
    match grants.split_first() {
        None => DcSet::new(),
        Some((grant, rest)) => givers(rest).with(grant.dc),
    }
}

/// The highest version of these grants and one more, and the value of its first grant.
fn best_with<'a>(grants: &'a [Grant], last: &'a Grant) -> (Version, Option<&'a Val>)
    ensures { (result.0, option_copied result.1) ≡ best_grant (grants.now ++ last.now ∷ []) }
{
    let Some((grant, rest)) = grants.split_first() else {
        return (last.version, last.value.as_ref());
    };
    let (version, value) = best_with(rest, last);
    if grant.version < version {
        (version, value)
    } else {
        (grant.version, grant.value.as_ref())
    }
}

/// Grants of a key, in the order in which they came.
#[derive(Drop)]
pub struct Grants {
    items: Vec<Grant>,
}

impl Model for Grants {
    ghost use Rattle.std.specs.Prelude.{List};
    ghost use Rattle.rc_protocol.specs.Client.{Grant as GrantState};

    ghost Value = { List GrantState };

    ghost view = { λ g. g.items.items };
}

impl Grants {
    /// No grants.
    pub fn new(alloc: Global) -> Grants
        ensures { result ≡ [] }
    {
        Grants {
            items: Vec::new(alloc),
        }
    }

    /// The datacentres that granted.
    pub fn granted_by(&self) -> DcSet
        ensures { result ≡ client.granted_by self.now }
    {
        givers(self.items.as_slice())
    }

    /// What is read with one grant more.
    pub fn done_with(&self, last: &Grant) -> Result<ReadDone, NoMemory>
        ensures { IfOk result (λ done. done ≡ done_by (self.now ++ last.now ∷ [])) }
    {
        let (version, value) = best_with(self.items.as_slice(), last);
        Ok(ReadDone {
            version,
            value: copied(value)?,
            from: self.granted_by().with(last.dc),
        })
    }

    /// Adds a grant at the end, or leaves all as before.
    pub fn push(&mut self, grant: Grant) -> Result<(), NoMemory>
        ensures ok { OnOk result (self.new ≡ self.old ++ grant ∷ []) }
        ensures err { OnErr result (self.new ≡ self.old) }
    {
        self.items.push(grant)?;
        Ok(())
    }
}
