// Quorums by weight.
ghost use Rattle.std.specs.Prelude.{◌≡◌, ℕ, ◌+◌, ◌≤◌, ◌<◌, length, sum, List, take, drop, replicate, ◌-◌};
ghost use Rattle.rc_ids.specs.Cluster.{weight_from, Layout, IsLayout};
ghost use Rattle.rc_ids.specs.Cluster as cluster_spec;
ghost use Rattle.rc_ids.specs.Quorum.{QuorumLaws};

use crate::{DcId, DcSet};
use std::marker::Model;

/// The weights of the datacentres of a cluster, which say what sets are quorums.
#[derive(Clone, Copy, Debug)]
pub struct Quorum {
    dcs: usize,
    weights: [u8; 7],
}

impl Model for Quorum {
    ghost use Rattle.std.specs.Prelude.{◌≡◌, ℕ, ◌-◌, ◌≤◌, ◌++◌, List, length, take, drop, replicate};
    ghost use Rattle.rc_ids.specs.Padded.{padded, length-padded};

    ghost Value = { List ℕ };

    ghost view = { λ q. take q.dcs q.weights };

    ghost invariant = { λ q. (q.dcs ≤ 7) × (length q.weights ≡ 7) × (drop q.dcs q.weights ≡ replicate (7 - q.dcs) 0) };

    ghost inverse = { λ ws. record { dcs = length ws; weights = ws ++ replicate (7 - length ws) 0 } };

    ghost inverse_ok = { λ q h i. record {
      dcs = length-padded q.dcs q.weights h.0 h.1 i;
      weights = padded q.dcs q.weights h.0 h.1 h.2 i;
    } };
}

/// The weight of the members of the set.
fn weight_of(weights: &[u8], set: &DcSet) -> u32
    requires { length weights.now ≤ 7 }
    ensures weight { result ≡ weight_from 1 weights.now set.now }
    ensures small { result ≤ 2000 }
{
    let mut weight = 0u32;
    for (place, own) in weights.iter().enumerate() {
        if set.has(DcId(place as u8 + 1)) {
            weight += *own as u32;
        }
    }
    weight
}

/// The weight of all datacentres.
fn weight_of_all(weights: &[u8]) -> u32
    requires { length weights.now ≤ 7 }
    ensures { result ≡ sum weights.now }
{
    let mut weight = 0u32;
    for own in weights {
        weight += *own as u32;
    }
    weight
}

/// These weights in an array, with zeros behind.
fn in_place(weights: &[u8]) -> [u8; 7]
    requires { length weights.now ≤ 7 }
    ensures front { take (length weights.now) result ≡ weights.now }
    ensures behind { drop (length weights.now) result ≡ replicate (7 - length weights.now) 0 }
{
    let mut held = [0u8; 7];
    held[..weights.len()].copy_from_slice(weights);
    held
}

impl Quorum {
    /// The quorum of datacentres with these weights.
    pub fn of_weights(weights: &[u8]) -> Quorum
        requires { length weights.now ≤ 7 }
        ensures { result ≡ weights.now }
    {
        Quorum {
            dcs: weights.len(),
            weights: in_place(weights),
        }
    }

    /// The weights, of each datacentre in order.
    pub fn weights(&self) -> &[u8]
        ensures { result.now ≡ self.now }
    {
        &self.weights[..self.dcs]
    }

    /// Whether the set is a quorum: its members weigh more than half of all datacentres.
    pub fn holds(&self, set: DcSet) -> bool
        ensures { result ≡ cluster_spec.holds self.now set }
    {
        let weights = &self.weights[..self.dcs];
        weight_of_all(weights) < 2 * weight_of(weights, &set)
    }
}

/// The laws of quorums: two share a datacentre, what holds one is one, and all datacentres are one.
pub fn quorum_laws()
    ensures { (c : Layout) → IsLayout c → QuorumLaws c }
{}
