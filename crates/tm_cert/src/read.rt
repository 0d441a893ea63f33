//! From a text to a certificate.
ghost use Rattle.std.specs.Prelude.{◌≡◌, ◌↔◌, ℕ, List, Ok, Some, map, codes, IfOk, IfErr, OnOk, MatchResult};
ghost use Rattle.std.specs.List.{range_with_len};
ghost use Rattle.serde_json.specs.Data.{Data};
ghost use Rattle.serde_json.specs.Read.{read};
ghost use Rattle.serde_json.specs.View.{view, members_view};
ghost use Rattle.tm_cert.specs.CertValue.{IsCertText};
ghost use Rattle.tm_cert.specs.Judge.{bits_at, driver_of, environment_of, format_at, judge, judge_text, keys_of, of_key, order_of, side_at};
ghost use Rattle.tm_cert.specs.Judged.{IsRefusalOf};
ghost use Rattle.tm_cert.specs.KeyOrder.{HasKeysInOrder};
ghost use Rattle.tm_cert.specs.Nodes.{nodes_at};
ghost use Rattle.tm_cert.specs.Part.{only_keys};

use crate::cert::{Cert, DriverCert, Entry, EnvCert};
use crate::goals::read_goals;
use crate::head::{Format, Side};
use crate::levels::{read_key, read_levels};
use crate::nodes::read_nodes;
use crate::order::read_order;
use crate::part::{other_key, out_of_range, read_members, read_number, read_value, wrong_shape};
use crate::path::Path;
use crate::refusal::{BadCert, ReadCertError};
use crate::shape::{CertShape, Kind};
use serde_json::{Map, Value};
use std::alloc::{AllocError, Global};

/// The certificate that a text is, in either format, for the numbers and the kind of a shape. In format 1, which has no
/// order, it is that of the places.
///
/// `Bad` is the first fault of the text. The keys are judged in the order `format`, `kind`, `bits`, `order`, `nodes`,
/// `region` and `goals` or `levels`, and any other key last; each part before its own parts, and its shape before its
/// range. `Memory` is want of memory.
///
/// Time and memory are linear in the length of the text, unless entries are picked whose hashes collide. Measured, not
/// proved: a certificate of 16 MiB is made, written and read within a second, in 20 times its length of memory.
#[tactic(auto, unfolding(crate::specs::Judge::judge_text))]
pub fn read_shaped(alloc: Global, shape: CertShape, text: &[u8]) -> Result<Cert, ReadCertError>
    ensures ok { IfOk result (IsCertText shape text.now) }
    ensures refused { IfErr result (IsRefusalOf (judge_text shape text.now)) }

    // A text that is a certificate has no answer beside it but want of memory.
    ensures read { (cert : Cert) → IsCertText shape text.now cert
        → MatchResult result (λ found. found ≡ cert) (λ e. e ≡ ReadCertError.Memory) }
{
    let value = match Value::from_slice(alloc, text) {
        Ok(value) => value,
        Err(error) if error.is_memory() => return Err(ReadCertError::Memory),
        Err(_) => return Err(ReadCertError::Bad(BadCert::Json)),
    };
    read_cert_value(alloc, shape, &value)
}

/// A text is judged as a certificate exactly where it is that certificate. So each text is one certificate for a shape,
/// or has one first fault, and none has both.
pub fn judged_exactly()
    ensures { (shape : CertShape) (text : List ℕ) (cert : Cert)
        → (judge_text shape text ≡ Ok cert) ↔ IsCertText shape text cert }
{}

/// The keys of each object that is read stand in byte order, so the first unknown key is the first in byte order.
pub fn keys_are_in_byte_order()
    ensures { (text : List ℕ) (d : Data) → read text ≡ Some d → HasKeysInOrder d }
{}

/// The certificate that a value is.
#[tactic(auto, unfolding(crate::specs::Judge::judge_members))]
fn read_cert_value(alloc: Global, shape: CertShape, value: &Value) -> Result<Cert, ReadCertError>
    ensures ok { IfOk result (λ cert. judge shape (view value.now) ≡ Ok cert) }
    ensures refused { IfErr result (IsRefusalOf (judge shape (view value.now))) }
{
    let members = given!(read_members(alloc, &Path::Key("format"), value));
    let format = given!(read_format(alloc, members));
    let side = given!(read_side(alloc, shape.wanted, members));
    given!(read_bits(alloc, shape.bits, members));
    let order = given!(read_order_of(alloc, format, shape.bits, members));
    let nodes = given!(read_nodes_of(alloc, shape.bits, members), order);
    match side {
        Side::Driver => read_driver(alloc, shape, format, order, nodes, members),
        Side::Environment => read_environment(alloc, shape, format, order, nodes, members),
    }
}

/// The format.
fn read_format(alloc: Global, members: &Map<String, Value>) -> Result<Format, ReadCertError>
    ensures ok { IfOk result
        (λ format. of_key (codes "format") format_at (members_view members.now.entries) ≡ Ok format) }
    ensures refused { IfErr result
        (IsRefusalOf (of_key (codes "format") format_at (members_view members.now.entries))) }
{
    let path = Path::Key("format");
    let value = given!(read_value(alloc, &path, members, "format"));
    match read_number(alloc, &path, value) {
        Ok(1) => Ok(Format::First),
        Ok(2) => Ok(Format::Second),
        Ok(_) => Err(out_of_range(alloc, &path)),
        Err(error) => Err(error),
    }
}

/// The side, which has to be wanted.
fn read_side(
    alloc: Global,
    wanted: Kind,
    members: &Map<String, Value>,
) -> Result<Side, ReadCertError>
    ensures ok { IfOk result
        (λ side. of_key (codes "kind") (side_at wanted) (members_view members.now.entries) ≡ Ok side) }
    ensures refused { IfErr result
        (IsRefusalOf (of_key (codes "kind") (side_at wanted) (members_view members.now.entries))) }
{
    let path = Path::Key("kind");
    let value = given!(read_value(alloc, &path, members, "kind"));
    match value.as_str() {
        Some("driver") if wanted != Kind::Environment => Ok(Side::Driver),
        Some("environment") if wanted != Kind::Driver => Ok(Side::Environment),
        _ => Err(wrong_shape(alloc, &path)),
    }
}

/// Asks that the number of bits is that of the shape.
fn read_bits(alloc: Global, bits: u32, members: &Map<String, Value>) -> Result<(), ReadCertError>
    ensures ok { OnOk result
        (of_key (codes "bits") (bits_at bits) (members_view members.now.entries) ≡ Ok bits) }
    ensures refused { IfErr result
        (IsRefusalOf (of_key (codes "bits") (bits_at bits) (members_view members.now.entries))) }
{
    let path = Path::Key("bits");
    let value = given!(read_value(alloc, &path, members, "bits"));
    match read_number(alloc, &path, value) {
        Ok(number) if number == u64::from(bits) => Ok(()),
        Ok(_) => Err(out_of_range(alloc, &path)),
        Err(error) => Err(error),
    }
}

/// The order of the levels. In format 1 it is that of the places.
fn read_order_of(
    alloc: Global,
    format: Format,
    bits: u32,
    members: &Map<String, Value>,
) -> Result<Vec<u32>, ReadCertError>
    ensures ok { IfOk result
        (λ order. order_of format bits (members_view members.now.entries) ≡ Ok order.items) }
    ensures refused { IfErr result
        (IsRefusalOf (order_of format bits (members_view members.now.entries))) }
{
    match format {
        Format::First => Ok(places_in_order(alloc, bits)?),
        Format::Second => {
            let path = Path::Key("order");
            let value = given!(read_value(alloc, &path, members, "order"));
            read_order(alloc, &path, bits, value)
        }
    }
}

/// The places in order.
fn places_in_order(alloc: Global, bits: u32) -> Result<Vec<u32>, AllocError>
    ensures { IfOk result (λ order. order.items ≡ range_with_len 0 bits) }
{
    (0..bits).collect(alloc)
}

/// The nodes.
fn read_nodes_of(
    alloc: Global,
    bits: u32,
    members: &Map<String, Value>,
) -> Result<Vec<Entry>, ReadCertError>
    ensures ok { IfOk result
        (λ nodes. of_key (codes "nodes") (λ path. nodes_at path bits)
        (members_view members.now.entries) ≡ Ok nodes.items) }
    ensures refused { IfErr result (IsRefusalOf
        (of_key (codes "nodes") (λ path. nodes_at path bits) (members_view members.now.entries))) }
{
    let path = Path::Key("nodes");
    match read_value(alloc, &path, members, "nodes") {
        Ok(value) => read_nodes(alloc, &path, bits, value),
        Err(error) => Err(error),
    }
}

/// The driver's certificate of this order and these nodes.
#[tactic(auto, unfolding(crate::specs::Judge::driver_of))]
fn read_driver(
    alloc: Global,
    shape: CertShape,
    format: Format,
    order: Vec<u32>,
    nodes: Vec<Entry>,
    members: &Map<String, Value>,
) -> Result<Cert, ReadCertError>
    ensures ok { IfOk result (λ cert.
        driver_of shape format order.items nodes.items (members_view members.now.entries) ≡ Ok cert) }
    ensures refused { IfErr result (IsRefusalOf
        (driver_of shape format order.items nodes.items (members_view members.now.entries))) }
{
    let ids = nodes.len() as u64 + 2;
    let path = Path::Key("region");
    let region = given!(read_key(alloc, &path, members, "region", ids), order, nodes);
    let path = Path::Key("goals");
    let goals = given!(read_value(alloc, &path, members, "goals"), order, nodes);
    let goals = given!(
        read_goals(alloc, &path, shape.goals, shape.fairs, ids, goals),
        order,
        nodes
    );
    let keys = known_keys(format, Side::Driver);
    given!(refuse_unknown(alloc, members, keys), order, nodes, goals);
    Ok(Cert::Driver(DriverCert {
        order,
        nodes,
        region,
        goals,
    }))
}

/// The environment's certificate of this order and these nodes.
#[tactic(auto, unfolding(crate::specs::Judge::environment_of))]
fn read_environment(
    alloc: Global,
    shape: CertShape,
    format: Format,
    order: Vec<u32>,
    nodes: Vec<Entry>,
    members: &Map<String, Value>,
) -> Result<Cert, ReadCertError>
    ensures ok { IfOk result (λ cert. environment_of shape format order.items nodes.items
        (members_view members.now.entries) ≡ Ok cert) }
    ensures refused { IfErr result (IsRefusalOf
        (environment_of shape format order.items nodes.items (members_view members.now.entries))) }
{
    let path = Path::Key("levels");
    let levels = given!(read_value(alloc, &path, members, "levels"), order, nodes);
    let ids = nodes.len() as u64 + 2;
    let levels = given!(
        read_levels(alloc, &path, shape.goals, shape.fairs, ids, levels),
        order,
        nodes
    );
    let keys = known_keys(format, Side::Environment);
    given!(refuse_unknown(alloc, members, keys), order, nodes, levels);
    Ok(Cert::Environment(EnvCert {
        order,
        nodes,
        levels,
    }))
}

/// Refuses a certificate that has another key than these, at the first such key in byte order.
fn refuse_unknown(
    alloc: Global,
    members: &Map<String, Value>,
    keys: &[&str],
) -> Result<(), ReadCertError>
    ensures ok { OnOk result (only_keys (λ key. key)
        (map (λ key. key.now) keys.now) (members_view members.now.entries) ≡ Ok tt) }
    ensures refused { IfErr result (IsRefusalOf (only_keys (λ key. key)
        (map (λ key. key.now) keys.now) (members_view members.now.entries))) }
{
    match other_key(members, keys) {
        Some(key) => Err(wrong_shape(alloc, &Path::Key(key))),
        None => Ok(()),
    }
}

/// The keys of a certificate.
fn known_keys(format: Format, side: Side) -> &'static [&'static str]
    ensures { map (λ key. key.now) result.now ≡ keys_of format side }
{
    match (format, side) {
        (Format::First, Side::Driver) => &["bits", "format", "goals", "kind", "nodes", "region"],
        (Format::Second, Side::Driver) => &[
            "bits", "format", "goals", "kind", "nodes", "order", "region",
        ],
        (Format::First, Side::Environment) => &["bits", "format", "kind", "levels", "nodes"],
        (Format::Second, Side::Environment) => {
            &["bits", "format", "kind", "levels", "nodes", "order"]
        }
    }
}
