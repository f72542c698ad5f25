// What datacentres give for a read.
ghost use Rattle.std.specs.Prelude.{◌≡◌, [], ◌∷◌, ◌++◌, IfOk, Option, List};
ghost use Rattle.std.specs.Option.{option_copied};
ghost use Rattle.rc_protocol.specs.Client.{best_grant};
ghost use Rattle.rc_protocol.specs.Client as client;

use rc_ids::{DcId, DcSet, NoMemory, Val, Version};
use std::alloc::Global;
use std::marker::Model;

/// The version and the value of a key that a datacentre's shard gave.
#[derive(Drop)]
pub struct Grant {
    dc: DcId,
    version: Version,
    value: Option<Val>,
}

impl Model for Grant {
    ghost use Rattle.rc_protocol.specs.Client.{Grant as GrantState};

    ghost Value = { GrantState };

    ghost view = { λ g. record { dc = g.dc; version = g.version; value = g.value } };
}

/// A copy of the value, if there is one.
pub fn copied_value(value: &Option<Val>) -> Result<Option<Val>, NoMemory>
    ensures { IfOk result (λ v. v ≡ value.now) }
{
    match value {
        Some(value) => Ok(Some(value.copy()?)),
        None => Ok(None),
    }
}

impl Grant {
    /// What a datacentre gave.
    pub fn new(dc: DcId, version: Version, value: Option<Val>) -> Grant
        ensures { result ≡ record { dc = dc; version = version; value = value } }
    {
        Grant { dc, version, value }
    }

    fn copy(&self) -> Result<Grant, NoMemory>
        ensures { IfOk result (λ g. g ≡ self.now) }
    {
        Ok(Grant {
            dc: self.dc,
            version: self.version,
            value: copied_value(&self.value)?,
        })
    }
}

/// The datacentres that gave these.
fn givers(grants: &[Grant]) -> DcSet
    ensures { result ≡ client.granted_by grants.now }
{
    match grants.split_first() {
        None => DcSet::new(),
        Some((grant, rest)) => givers(rest).with(grant.dc),
    }
}

/// The highest version, and the value of its first grant; version 0 and no value where there is no grant.
fn best(grants: &[Grant]) -> (Version, Option<&Val>)
    ensures { (result.0, option_copied result.1) ≡ best_grant grants.now }
{
    let Some((grant, rest)) = grants.split_first() else {
        return (Version(0), None);
    };
    let (version, value) = best(rest);
    if grant.version < version {
        (version, value)
    } else {
        (grant.version, grant.value.as_ref())
    }
}

/// Grants of a key, in the order in which they came.
#[derive(Drop)]
pub struct Grants {
    items: Vec<Grant>,
}

impl Model for Grants {
    ghost use Rattle.std.specs.Prelude.{List};
    ghost use Rattle.rc_protocol.specs.Client.{Grant as GrantState};

    ghost Value = { List GrantState };

    ghost view = { λ g. g.items.items };
}

impl Grants {
    /// No grants.
    pub fn new(alloc: Global) -> Grants
        ensures { result ≡ [] }
    {
        Grants {
            items: Vec::new(alloc),
        }
    }

    /// The datacentres that granted.
    pub fn granted_by(&self) -> DcSet
        ensures { result ≡ client.granted_by self.now }
    {
        givers(self.items.as_slice())
    }

    /// The highest version, and the value of its first grant.
    pub fn best(&self) -> Result<(Version, Option<Val>), NoMemory>
        ensures { IfOk result (λ b. (b.0, b.1) ≡ best_grant self.now) }
    {
        let (version, value) = best(self.items.as_slice());
        let value = match value {
            Some(value) => Some(value.copy()?),
            None => None,
        };
        Ok((version, value))
    }

    /// These grants and one more.
    pub fn with(&self, grant: Grant) -> Result<Grants, NoMemory>
        ensures { IfOk result (λ g. g ≡ self.now ++ grant ∷ []) }
    {
        let mut items = Vec::new(*self.items.allocator());
        for own in self.items.as_slice() {
            items.push(own.copy()?)?;
        }
        items.push(grant)?;
        Ok(Grants { items })
    }
}
