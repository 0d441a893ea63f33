//! Certificates: what makes a verdict on a design checkable.
use std::hash::{Hash, Hasher};
use std::marker::Model;
use tm_dd::mixed;

/// A certificate of either kind.
#[derive(Drop)]
pub enum Cert {
    /// That a driver meets its goals.
    Driver(DriverCert),
    /// That no driver does.
    Environment(EnvCert),
}

/// A driver's certificate: a region that the driver keeps, and ranks that fall until a goal holds (Piterman, Pnueli and
/// Sa'ar 2006). Sets are ids of decision diagrams over `nodes`: 0 is false, 1 is true, and `k + 2` is the entry `k`.
#[derive(Drop)]
pub struct DriverCert {
    /// The place of the state bit of each level.
    pub order: Vec<u32>,
    pub nodes: Vec<Entry>,
    pub region: u64,
    /// For each goal its ranked sets, rank 1 first.
    pub goals: Vec<Vec<Rank>>,
}

impl Model for DriverCert {
    ghost use Rattle.std.specs.Prelude.{map};
    ghost use Rattle.tm_cert.specs.Cert.{DriverData};

    ghost Value = { DriverData };

    ghost view = { λ c. record {
      order = c.order.items;
      nodes = c.nodes.items;
      region = c.region;
      goals = map (λ ranks. ranks.items) c.goals.items;
    } };
}

/// An environment's certificate: levels of states from which the environment can keep some goal from holding. Sets are
/// ids, as in a driver's certificate.
#[derive(Drop)]
pub struct EnvCert {
    /// The place of the state bit of each level of the diagrams.
    pub order: Vec<u32>,
    pub nodes: Vec<Entry>,
    pub levels: Vec<CertLevel>,
}

impl Model for EnvCert {
    ghost use Rattle.tm_cert.specs.Cert.{EnvData};

    ghost Value = { EnvData };

    ghost view = { λ c. record { order = c.order.items; nodes = c.nodes.items; levels = c.levels.items } };
}

/// A node of a decision diagram: `lo` where the bit of its level is 0, and `hi` where it is 1.
#[derive(Clone, Copy, PartialEq, Eq)]
pub struct Entry {
    pub level: u32,
    pub lo: u64,
    pub hi: u64,
}

impl Hash for Entry {
    ghost use Rattle.tm_cert.specs.Hashed.{entry_hash, same_entry_hash};

    ghost hash_input = { entry_hash };

    ghost respects_eq = { same_entry_hash };

    fn hash<H: Hasher>(&self, state: &mut H) {
        state.write_u64(mixed(u64::from(self.level), self.lo, self.hi));
    }
}

/// The set of the states up to a rank, and the number of the fairness condition of that rank.
#[derive(Clone, Copy)]
pub struct Rank {
    pub fair: u32,
    pub set: u64,
}

/// A level of an environment's certificate: its goal, its set, and one chain of sets for each fairness condition.
#[derive(Drop)]
pub struct CertLevel {
    pub goal: u32,
    pub set: u64,
    pub chains: Vec<Vec<u64>>,
}

impl Model for CertLevel {
    ghost use Rattle.std.specs.Prelude.{map};
    ghost use Rattle.tm_cert.specs.Cert.{LevelData};

    ghost Value = { LevelData };

    ghost view = { λ l. record {
      goal = l.goal;
      set = l.set;
      chains = map (λ chain. chain.items) l.chains.items;
    } };
}
