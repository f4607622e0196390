//! Nodes of the JSON tree, and the fields of objects.

ghost use Rattle.std.specs.Prelude.{◌≡◌, ◌≢◌, [], IfOk, OnOk, IfSome, IsTrue, map, option_map, bytes_eq};
ghost use Rattle.std.specs.List.{list_any};
ghost use Rattle.serde_json.specs.View.{view, members_view};
ghost use Rattle.cv_project.specs.Answers.{Answers};
ghost use Rattle.cv_project.specs.Nodes.{field_path, member_path};
ghost use Rattle.cv_project.specs.Fields.{field, required, optional, with_default, tested, is_object};
ghost use Rattle.cv_project.specs.Fields.{first_other, no_others};

use crate::kind::Kind;
use crate::path::Path;
use crate::refusal::Refusal;
use serde_json::{Map, Value};
use std::alloc::Global;

/// A value of the tree, with the path that leads to it.
#[derive(Drop)]
pub struct Node<'a> {
    alloc: Global,
    path: Path<'a>,
    value: &'a Value,
}

impl<'a> Node<'a> {
    ghost use Rattle.cv_project.specs.Seen.{seen};

    /// The top of the tree.
    pub fn top(alloc: Global, value: &'a Value) -> Node<'a>
        ensures { seen result ≡ record { path = []; value = view value.now } }
    {
        Node {
            alloc,
            path: Path::Top,
            value,
        }
    }

    /// The memory in which answers are made.
    pub fn alloc(&self) -> Global {
        self.alloc
    }

    /// What stands at the node.
    pub fn value(&self) -> &'a Value
        ensures { view result.now ≡ (seen self.now).value }
    {
        self.value
    }

    /// The refusal of a value of another kind.
    pub fn wrong_kind(&self) -> Refusal
        ensures { (result ≢ Refusal.NoMemory) → result ≡ Refusal.WrongKind (seen self.now).path }
    {
        match self.path.text(self.alloc) {
            Ok(path) => Refusal::WrongKind(path),
            Err(_) => Refusal::NoMemory,
        }
    }

    /// The refusal of a field's value of another kind.
    pub fn wrong_kind_at(&self, name: &str) -> Refusal
        ensures { (result ≢ Refusal.NoMemory)
            → result ≡ Refusal.WrongKind (field_path (seen self.now).path name.now) }
    {
        match Path::Field(&self.path, name).text(self.alloc) {
            Ok(path) => Refusal::WrongKind(path),
            Err(_) => Refusal::NoMemory,
        }
    }

    /// The refusal of a value out of its range.
    pub fn limit(&self) -> Refusal
        ensures { (result ≢ Refusal.NoMemory) → result ≡ Refusal.Limit (seen self.now).path }
    {
        match self.path.text(self.alloc) {
            Ok(path) => Refusal::Limit(path),
            Err(_) => Refusal::NoMemory,
        }
    }

    /// The refusal of an object without a field.
    pub fn missing(&self, name: &str) -> Refusal
        ensures { (result ≢ Refusal.NoMemory)
            → result ≡ Refusal.Missing (field_path (seen self.now).path name.now) }
    {
        match Path::Field(&self.path, name).text(self.alloc) {
            Ok(path) => Refusal::Missing(path),
            Err(_) => Refusal::NoMemory,
        }
    }

    /// The refusal of a key that is no field's.
    pub fn unknown(&self, key: &str) -> Refusal
        ensures { (result ≢ Refusal.NoMemory)
            → result ≡ Refusal.Unknown (field_path (seen self.now).path key.now) }
    {
        match Path::Field(&self.path, key).text(self.alloc) {
            Ok(path) => Refusal::Unknown(path),
            Err(_) => Refusal::NoMemory,
        }
    }

    /// The field of a name, where it is there and isn't null.
    pub fn field<'b>(&'b self, name: &'b str) -> Option<Node<'b>>
        ensures { option_map seen result ≡ field name.now (seen self.now) }
    {
        let value = self.value.get(name)?;
        if value.is_null() {
            return None;
        }
        Some(Node {
            alloc: self.alloc,
            path: Path::Field(&self.path, name),
            value,
        })
    }

    /// A member of the list that stands here.
    pub fn member<'b>(&'b self, at: usize, value: &'b Value) -> Node<'b>
        ensures { seen result
            ≡ record { path = member_path (seen self.now).path at; value = view value.now } }
    {
        Node {
            alloc: self.alloc,
            path: Path::Member(&self.path, at),
            value,
        }
    }

    /// A field that must be there.
    #[tactic(auto, unfolding(crate::specs::Fields::required))]
    pub fn required<K: Kind>(&self, name: &str, kind: &K) -> Result<K::Made, Refusal>
        ensures exact { Answers result (required (K.made kind.now) name.now (seen self.now)) }
        ensures kept { IfOk result (K.keeps kind.now) }
    {
        match self.field(name) {
            Some(node) => kind.read(&node),
            None => Err(self.missing(name)),
        }
    }

    /// A field that may be absent.
    #[tactic(auto, unfolding(crate::specs::Fields::optional))]
    pub fn optional<K: Kind>(&self, name: &str, kind: &K) -> Result<Option<K::Made>, Refusal>
        ensures exact { Answers result (optional (K.made kind.now) name.now (seen self.now)) }
        ensures kept { IfOk result (λ found. IfSome found (K.keeps kind.now)) }
    {
        match self.field(name) {
            Some(node) => {
                let found = kind.read(&node)?;
                Ok(Some(found))
            }
            None => Ok(None),
        }
    }

    /// A field with a default.
    #[tactic(auto, unfolding(crate::specs::Fields::with_default))]
    pub fn with_default<K: Kind>(
        &self,
        name: &str,
        kind: &K,
        default: K::Made,
    ) -> Result<K::Made, Refusal>
        requires { K.keeps kind.now default }
        ensures exact { Answers result (with_default default (K.made kind.now) name.now (seen self.now)) }
        ensures kept { IfOk result (K.keeps kind.now) }
    {
        match self.field(name) {
            Some(node) => kind.read(&node),
            None => Ok(default),
        }
    }

    /// Whether the node is an object.
    #[tactic(auto, unfolding(crate::specs::Fields::is_object))]
    pub fn object(&self) -> Result<(), Refusal>
        ensures { Answers result (is_object (seen self.now)) }
    {
        if self.value.is_object() {
            Ok(())
        } else {
            Err(self.wrong_kind())
        }
    }

    /// A further test of a field whose value is read already.
    #[tactic(auto, unfolding(crate::specs::Fields::tested))]
    pub fn tested(&self, test: bool, name: &str) -> Result<(), Refusal>
        ensures exact { Answers result (tested test name.now (seen self.now)) }
        ensures held { OnOk result (IsTrue test) }
    {
        if test {
            return Ok(());
        }
        match Path::Field(&self.path, name).text(self.alloc) {
            Ok(path) => Err(Refusal::Limit(path)),
            Err(_) => Err(Refusal::NoMemory),
        }
    }

    /// Whether an object has no other keys than these.
    #[tactic(auto, unfolding(crate::specs::Fields::no_others))]
    pub fn no_others(&self, names: &[&str]) -> Result<(), Refusal>
        ensures { Answers result (no_others (map (λ n. n.now) names.now) (seen self.now)) }
    {
        match self.value.as_object() {
            Some(members) => match first_other(names, members) {
                Some(key) => Err(self.unknown(key)),
                None => Ok(()),
            },
            None => Ok(()),
        }
    }
}

/// Whether a key is one of these names.
fn is_among(names: &[&str], key: &str) -> bool
    ensures { result ≡ list_any (λ name. bytes_eq name.now key.now) names.now }
{
    names.iter().any(|name| *name == key)
}

/// The first key in byte order that isn't among these names.
fn first_other<'a>(names: &[&str], members: &'a Map<String, Value>) -> Option<&'a str>
    ensures { option_map (λ key. key.now) result
        ≡ first_other (map (λ n. n.now) names.now) (members_view members.now.entries) }
{
    for (key, _) in members {
        if !is_among(names, key.as_str()) {
            return Some(key.as_str());
        }
    }
    None
}
