//! From a certificate to its text.
ghost use Rattle.std.specs.Prelude.{◌≡◌, map, codes, IfOk};
ghost use Rattle.serde_json.specs.View.{view, members_view};
ghost use Rattle.serde_json.specs.Data.{Data, Members, member, no_members, object, put};
ghost use Rattle.tm_cert.specs.CertValue.{IsCert, IsCertText};
ghost use Rattle.tm_cert.specs.declared.shape.CertShape.{CertShape};
ghost use Rattle.tm_cert.specs.Written.{cert_data, cert_text, driver_data, entry_data, environment_data, goal_data, level_data, list_data, number_data, rank_data};

use crate::cert::{Cert, CertLevel, DriverCert, Entry, EnvCert, Rank};
use serde_json::{Map, Value, put};
use std::alloc::{AllocError, Global};

/// The text of a certificate for a design of so many state bits: JSON in format 2, without blanks, the keys of each
/// object in byte order, and a line feed at the end.
pub fn write_shaped(alloc: Global, bits: u32, cert: &Cert) -> Result<Vec<u8>, AllocError>
    ensures text { IfOk result (λ bytes. bytes.items ≡ cert_text bits cert.now) }

    // A certificate that some value is, for a shape of so many bits, is read from its text.
    ensures reads_back { IfOk result (λ bytes. (shape : CertShape) (d : Data) → shape.bits ≡ bits
        → IsCert shape d cert.now → IsCertText shape bytes.items cert.now) }
{
    let mut text = cert_value(alloc, bits, cert)?.to_vec(alloc)?;
    text.push(b'\n')?;
    Ok(text)
}

fn cert_value(alloc: Global, bits: u32, cert: &Cert) -> Result<Value, AllocError>
    ensures { IfOk result (λ value. view value ≡ cert_data bits cert.now) }
{
    match cert {
        Cert::Driver(cert) => driver_value(alloc, bits, cert),
        Cert::Environment(cert) => environment_value(alloc, bits, cert),
    }
}

fn driver_value(alloc: Global, bits: u32, cert: &DriverCert) -> Result<Value, AllocError>
    ensures { IfOk result (λ value. view value ≡ driver_data bits cert.now) }
{
    let members = first_members(alloc, bits);
    let members = with(alloc, members, "goals", goals_value(alloc, &cert.goals));
    let members = with(alloc, members, "kind", Value::try_from_str(alloc, "driver"));
    let members = with(alloc, members, "nodes", nodes_value(alloc, &cert.nodes));
    let members = with(alloc, members, "order", order_value(alloc, &cert.order));
    object(with(alloc, members, "region", Ok(Value::from(cert.region))))
}

fn environment_value(alloc: Global, bits: u32, cert: &EnvCert) -> Result<Value, AllocError>
    ensures { IfOk result (λ value. view value ≡ environment_data bits cert.now) }
{
    let members = first_members(alloc, bits);
    let members = with(
        alloc,
        members,
        "kind",
        Value::try_from_str(alloc, "environment"),
    );
    let members = with(alloc, members, "levels", levels_value(alloc, &cert.levels));
    let members = with(alloc, members, "nodes", nodes_value(alloc, &cert.nodes));
    object(with(alloc, members, "order", order_value(alloc, &cert.order)))
}

/// The members with which both kinds of certificate begin.
fn first_members(alloc: Global, bits: u32) -> Result<Map<String, Value>, AllocError>
    ensures { IfOk result (λ members. members_view members.entries
        ≡ member (codes "bits") (number_data bits) (member (codes "format") (number_data 2) no_members)) }
{
    let members = with(alloc, Ok(Map::new(alloc)), "bits", Ok(Value::from(bits)));
    with(alloc, members, "format", Ok(Value::from(2u32)))
}

/// The members of an object, and one more. It takes results, so that a caller has no exit between two members.
fn with(
    alloc: Global,
    members: Result<Map<String, Value>, AllocError>,
    key: &str,
    value: Result<Value, AllocError>,
) -> Result<Map<String, Value>, AllocError>
    ensures { (ms : Members) (d : Data) → IfOk members (λ m. members_view m.entries ≡ ms)
        → IfOk value (λ v. view v ≡ d) → IfOk result (λ m. members_view m.entries ≡ put key.now d ms) }
{
    let mut members = given!(members, value);
    let value = given!(value, members);
    given!(put(&mut members, alloc, key, value), members);
    Ok(members)
}

/// The object of these members.
fn object(members: Result<Map<String, Value>, AllocError>) -> Result<Value, AllocError>
    ensures { (ms : Members) → IfOk members (λ m. members_view m.entries ≡ ms)
        → IfOk result (λ v. view v ≡ object ms) }
{
    match members {
        Ok(members) => Ok(Value::Object(members)),
        Err(error) => Err(error),
    }
}

fn order_value(alloc: Global, order: &[u32]) -> Result<Value, AllocError>
    ensures { IfOk result (λ value. view value ≡ list_data number_data order.now) }
{
    let mut items = Vec::new(alloc);
    for place in order {
        items.push(Value::from(*place))?;
    }
    Ok(Value::Array(items))
}

fn nodes_value(alloc: Global, nodes: &[Entry]) -> Result<Value, AllocError>
    ensures { IfOk result (λ value. view value ≡ list_data entry_data nodes.now) }
{
    let mut items = Vec::new(alloc);
    for entry in nodes {
        items.push(entry_value(alloc, *entry)?)?;
    }
    Ok(Value::Array(items))
}

fn entry_value(alloc: Global, entry: Entry) -> Result<Value, AllocError>
    ensures { IfOk result (λ value. view value ≡ entry_data entry) }
{
    let numbers = [
        Value::from(entry.level),
        Value::from(entry.lo),
        Value::from(entry.hi),
    ];
    Ok(Value::Array(Vec::from_array(alloc, numbers)?))
}

fn goals_value(alloc: Global, goals: &[Vec<Rank>]) -> Result<Value, AllocError>
    ensures { IfOk result
        (λ value. view value ≡ list_data goal_data (map (λ ranks. ranks.items) goals.now)) }
{
    let mut items = Vec::new(alloc);
    for ranks in goals {
        items.push(goal_value(alloc, ranks)?)?;
    }
    Ok(Value::Array(items))
}

fn goal_value(alloc: Global, ranks: &[Rank]) -> Result<Value, AllocError>
    ensures { IfOk result (λ value. view value ≡ goal_data ranks.now) }
{
    let members = Ok(Map::new(alloc));
    object(with(alloc, members, "ranks", ranks_value(alloc, ranks)))
}

fn ranks_value(alloc: Global, ranks: &[Rank]) -> Result<Value, AllocError>
    ensures { IfOk result (λ value. view value ≡ list_data rank_data ranks.now) }
{
    let mut items = Vec::new(alloc);
    for rank in ranks {
        items.push(rank_value(alloc, *rank)?)?;
    }
    Ok(Value::Array(items))
}

fn rank_value(alloc: Global, rank: Rank) -> Result<Value, AllocError>
    ensures { IfOk result (λ value. view value ≡ rank_data rank) }
{
    let numbers = [Value::from(rank.fair), Value::from(rank.set)];
    Ok(Value::Array(Vec::from_array(alloc, numbers)?))
}

fn levels_value(alloc: Global, levels: &[CertLevel]) -> Result<Value, AllocError>
    ensures { IfOk result (λ value. view value ≡ list_data level_data levels.now) }
{
    let mut items = Vec::new(alloc);
    for level in levels {
        items.push(level_value(alloc, level)?)?;
    }
    Ok(Value::Array(items))
}

fn level_value(alloc: Global, level: &CertLevel) -> Result<Value, AllocError>
    ensures { IfOk result (λ value. view value ≡ level_data level.now) }
{
    let members = Ok(Map::new(alloc));
    let members = with(alloc, members, "chains", chains_value(alloc, &level.chains));
    let members = with(alloc, members, "goal", Ok(Value::from(level.goal)));
    object(with(alloc, members, "set", Ok(Value::from(level.set))))
}

fn chains_value(alloc: Global, chains: &[Vec<u64>]) -> Result<Value, AllocError>
    ensures { IfOk result (λ value. view value
        ≡ list_data (list_data number_data) (map (λ chain. chain.items) chains.now)) }
{
    let mut items = Vec::new(alloc);
    for chain in chains {
        items.push(chain_value(alloc, chain)?)?;
    }
    Ok(Value::Array(items))
}

fn chain_value(alloc: Global, chain: &[u64]) -> Result<Value, AllocError>
    ensures { IfOk result (λ value. view value ≡ list_data number_data chain.now) }
{
    let mut items = Vec::new(alloc);
    for id in chain {
        items.push(Value::from(*id))?;
    }
    Ok(Value::Array(items))
}
