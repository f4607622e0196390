//! The tree that stands for a part of a project file.

ghost use Rattle.std.specs.Prelude.{◌≡◌, Some, option_map, All, IfOk, OnOk, OnErr, IfSome};
ghost use Rattle.serde_json.specs.Data.{Data, object, no_members};
ghost use Rattle.serde_json.specs.View.{view};
ghost use Rattle.cv_project.specs.Trees.{with_field, list_tree};

use cv_model::NoMemory;
use serde_json::{Map, Value};
use std::alloc::Global;

/// A part of a project file, for which a tree stands.
pub trait Part {
    ghost stands: { Self → Data };

    ghost kept: { Self → Type 0 };

    /// The tree that stands for the part.
    fn tree(&self, alloc: Global) -> Result<Value, NoMemory>
        ensures tree { IfOk result (λ value. view value ≡ stands self.now) }
        ensures kept { OnOk result (kept self.now) };
}

/// The tree of a list.
pub fn list<T: Part>(alloc: Global, parts: &[T]) -> Result<Value, NoMemory>
    ensures tree { IfOk result (λ value. view value ≡ list_tree T.stands parts.now) }
    ensures kept { OnOk result (All T.kept parts.now) }
{
    let mut values = Vec::new(alloc);
    for part in parts {
        let value = part.tree(alloc)?;
        values.push(value)?;
    }
    Ok(Value::Array(values))
}

/// An object of the tree that is being made.
#[derive(Drop)]
pub struct Object {
    alloc: Global,
    members: Map<String, Value>,
}

impl Object {
    ghost use Rattle.cv_project.specs.Seen.{made};

    /// An object without fields.
    pub fn new(alloc: Global) -> Object
        ensures { made result ≡ no_members }
    {
        Object {
            alloc,
            members: Map::new(alloc),
        }
    }

    /// Puts a value under a name.
    fn put(&mut self, name: &str, value: Value) -> Result<(), NoMemory>
        ensures put { OnOk result
            (made self.new ≡ with_field name.now (Some (view value)) (made self.old)) }
        ensures unchanged { OnErr result (made self.new ≡ made self.old) }
    {
        serde_json::put(&mut self.members, self.alloc, name, value)
    }

    /// Puts a field that is always written.
    pub fn always<T: Part>(&mut self, name: &str, part: &T) -> Result<(), NoMemory>
        ensures put { OnOk result
            (made self.new ≡ with_field name.now (Some (T.stands part.now)) (made self.old)) }
        ensures kept { OnOk result (T.kept part.now) }
        ensures unchanged { OnErr result (made self.new ≡ made self.old) }
    {
        let value = part.tree(self.alloc)?;
        self.put(name, value)
    }

    /// Puts a field that is left out where there is nothing to write.
    pub fn if_any<T: Part>(&mut self, name: &str, part: &Option<T>) -> Result<(), NoMemory>
        ensures put { OnOk result
            (made self.new ≡ with_field name.now (option_map T.stands part.now) (made self.old)) }
        ensures kept { OnOk result (IfSome part.now T.kept) }
        ensures unchanged { OnErr result (made self.new ≡ made self.old) }
    {
        match part {
            Some(part) => self.always(name, part),
            None => Ok(()),
        }
    }

    /// Puts a list.
    pub fn list<T: Part>(&mut self, name: &str, parts: &[T]) -> Result<(), NoMemory>
        ensures put { OnOk result
            (made self.new ≡ with_field name.now (Some (list_tree T.stands parts.now)) (made self.old)) }
        ensures kept { OnOk result (All T.kept parts.now) }
        ensures unchanged { OnErr result (made self.new ≡ made self.old) }
    {
        let value = list(self.alloc, parts)?;
        self.put(name, value)
    }

    /// The object as a value.
    pub fn value(self) -> Value
        ensures { view result ≡ object (made self) }
    {
        Value::Object(self.members)
    }
}
