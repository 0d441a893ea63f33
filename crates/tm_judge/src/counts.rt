//! The numbers that are reported of a certificate.
ghost use Rattle.std.specs.Prelude.{◌≡◌, IfOk, length, map};
ghost use Rattle.tm_judge.specs.Chains.{greatest, longest_in};
ghost use Rattle.tm_sem.specs.Certificates.{longest_chain as chain_of_levels};
ghost use Rattle.tm_verdict.specs.Sets.{levels_of};
ghost use Rattle.tm_syntax.specs.Design.{DesignTree};

use std::alloc::{AllocError, Global};
use tm_cert::{CertLevel, DriverCert, EnvCert, Rank};

// The numbers of ranked regions of goals.
fn lengths(alloc: Global, goals: &[Vec<Rank>]) -> Result<Vec<u64>, AllocError>
    ensures { IfOk result (λ ranks. ranks.items ≡ map (λ g. length g.items) goals.now) }
{
    goals.iter().map(|ranks| ranks.len() as u64).collect(alloc)
}

/// For each goal of a certificate the number of its ranked regions. `AllocError` is want of memory.
pub fn ranks_of(alloc: Global, cert: &DriverCert) -> Result<Vec<u64>, AllocError>
    ensures { IfOk result (λ ranks. ranks.items ≡ map length cert.now.goals) }
{
    lengths(alloc, &cert.goals)
}

// The number of sets in the longest of some chains.
fn longest_of(chains: &[Vec<u64>]) -> u64
    ensures { result ≡ greatest (λ chain. length chain.items) chains.now }
{
    let mut most = 0;
    for chain in chains {
        most = most.max(chain.len() as u64);
    }
    most
}

// The number of sets in the longest chain of some levels.
fn longest_in_levels(levels: &[CertLevel]) -> u64
    ensures { result ≡ greatest longest_in levels.now }
{
    let mut most = 0;
    for level in levels {
        most = most.max(longest_of(&level.chains));
    }
    most
}

/// The number of sets in the longest chain of a certificate, 0 where it has no level. It takes no memory.
pub fn longest_chain(cert: &EnvCert) -> u64
    ensures { (d : DesignTree) → result ≡ chain_of_levels (levels_of d cert.now) }
{
    longest_in_levels(&cert.levels)
}
