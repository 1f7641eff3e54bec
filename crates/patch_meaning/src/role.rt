//! What a row of a patch says.

ghost use Rattle.std.specs.Prelude.{◌≡◌};
ghost use Rattle.patch_meaning.specs.Roles.{found_role, header_role, id_in, iri_id, role};
ghost use Rattle.patch_meaning.specs.Roles.{string_id, value_id};

use delta_base::{Id, Text, read_id};
use patch_rows::Row;
use rdf_terms::{Change, LiteralKind, Term};
use row_scan::Says;

/// What a row says.
#[derive(Drop)]
pub enum Role {
    /// The patch's id; none where the value is no id.
    Id(Option<Id>),
    /// The id of the patch before.
    Prev(Option<Id>),
    /// A header of another key.
    Other,
    Change(Change),
}

/// What a row says. It is inlined for the same reason as `next_from`.
#[inline(always)]
pub fn role_of(row: Row) -> Role
    ensures { result ≡ role row }
{
    match row {
        Row::Header { key, value } => header_role(&key, &value),
        Row::Change(change) => Role::Change(change),
    }
}

/// What a row says that a scan found, unless it adds or deletes a quad, of which no term is made.
#[inline(always)]
pub fn found_role(says: Says) -> Option<Role>
    ensures { result ≡ found_role says }
{
    match says {
        Says::Quad { .. } => None,
        Says::Begin => Some(Role::Change(Change::Begin)),
        Says::Commit => Some(Role::Change(Change::Commit)),
        Says::Abort => Some(Role::Change(Change::Abort)),
        Says::Id(id) => Some(Role::Id(Some(id))),
        Says::Prev(id) => Some(Role::Prev(Some(id))),
    }
}

#[tactic(auto, unfolding(crate::specs::Roles::header_role))]
fn header_role(key: &Text, value: &Term) -> Role
    ensures { result ≡ header_role key.now value.now }
{
    let key = key.as_bytes();
    if key == b"id".as_slice() {
        Role::Id(value_id(value))
    } else if key == b"prev".as_slice() || key == b"previous".as_slice() {
        Role::Prev(value_id(value))
    } else {
        Role::Other
    }
}

// The id that the value of a header names.
#[tactic(auto, unfolding(crate::specs::Roles::value_id))]
fn value_id(value: &Term) -> Option<Id>
    ensures { result ≡ value_id value.now }
{
    match value {
        Term::Iri(iri) => iri_id(iri.as_bytes()),
        Term::Blank(_) => None,
        Term::Literal(literal) => string_id(literal.lexical.as_bytes(), &literal.kind),
    }
}

fn string_id(string: &[u8], kind: &LiteralKind) -> Option<Id>
    ensures { result ≡ string_id string.now kind.now }
{
    match kind {
        LiteralKind::Plain => id_in(string),
        _ => None,
    }
}

// The id behind `uuid:` or `urn:uuid:`.
fn iri_id(iri: &[u8]) -> Option<Id>
    ensures { result ≡ iri_id iri.now }
{
    if let Some(id) = iri.strip_prefix(b"uuid:".as_slice()) {
        return id_in(id);
    }
    match iri.strip_prefix(b"urn:uuid:".as_slice()) {
        Some(id) => id_in(id),
        None => None,
    }
}

fn id_in(text: &[u8]) -> Option<Id>
    ensures { result ≡ id_in text.now }
{
    read_id(text)
}
