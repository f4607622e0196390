//! Copies of what an edit holds, in memory of their own.

ghost use Rattle.std.specs.Prelude.{◌≡◌, ◌++◌, IfOk, OnOk};

use cv_model::{
    Class, Classes, Feature, Field, Geometry, Join, NoMemory, Point, Ramp, Range, Sequence, Stop,
    Style, Text,
};
use std::alloc::Global;

/// A value of which there can be a second one in memory of its own.
pub trait Duplicate {
    /// Another value that is the same.
    fn duplicate(&self, alloc: Global) -> Result<Self, NoMemory>
    where
        Self: Sized,
        ensures { IfOk result (λ made. made ≡ self.now) };
}

impl Duplicate for Point {
    fn duplicate(&self, _alloc: Global) -> Result<Point, NoMemory> {
        Ok(*self)
    }
}

impl Duplicate for Stop {
    fn duplicate(&self, _alloc: Global) -> Result<Stop, NoMemory> {
        Ok(*self)
    }
}

impl Duplicate for Range {
    fn duplicate(&self, _alloc: Global) -> Result<Range, NoMemory> {
        Ok(*self)
    }
}

impl Duplicate for Text {
    fn duplicate(&self, alloc: Global) -> Result<Text, NoMemory> {
        Text::of(alloc, self.as_str())
    }
}

/// Puts copies of these items behind those of a list. A refusal leaves some of them there.
pub fn put_copies<T: Duplicate + Drop>(
    alloc: Global,
    list: &mut Sequence<T>,
    items: &[T],
) -> Result<(), NoMemory>
    ensures { OnOk result (list.new ≡ list.old ++ items.now) }
{
    for item in items {
        list.put(item.duplicate(alloc)?)?;
    }
    Ok(())
}

/// A list of copies of these items.
pub fn duplicates<T: Duplicate + Drop>(alloc: Global, items: &[T]) -> Result<Sequence<T>, NoMemory>
    ensures { IfOk result (λ made. made ≡ items.now) }
{
    let mut made = Sequence::with_room(alloc, items.len() as u64)?;
    put_copies(alloc, &mut made, items)?;
    Ok(made)
}

impl<T: Duplicate + Drop> Duplicate for Sequence<T> {
    fn duplicate(&self, alloc: Global) -> Result<Sequence<T>, NoMemory> {
        duplicates(alloc, self.as_slice())
    }
}

impl<T: Duplicate> Duplicate for Option<T> {
    fn duplicate(&self, alloc: Global) -> Result<Option<T>, NoMemory> {
        match self {
            Some(item) => Ok(Some(item.duplicate(alloc)?)),
            None => Ok(None),
        }
    }
}

impl Duplicate for Geometry {
    fn duplicate(&self, alloc: Global) -> Result<Geometry, NoMemory> {
        let points = duplicates(alloc, self.points())?;
        let lines = duplicates(alloc, self.lines())?;
        let polygons = duplicates(alloc, self.polygons())?;
        Ok(Geometry::of(points, lines, polygons))
    }
}

impl Duplicate for Feature {
    fn duplicate(&self, alloc: Global) -> Result<Feature, NoMemory> {
        Ok(Feature {
            id: self.id,
            geometry: self.geometry.duplicate(alloc)?,
            values: self.values.duplicate(alloc)?,
        })
    }
}

impl Duplicate for Join {
    fn duplicate(&self, alloc: Global) -> Result<Join, NoMemory> {
        Ok(Join {
            layer: self.layer,
            local: self.local.duplicate(alloc)?,
            key: self.key.duplicate(alloc)?,
        })
    }
}

impl Duplicate for Field {
    fn duplicate(&self, alloc: Global) -> Result<Field, NoMemory> {
        Ok(Field {
            joined: self.joined,
            name: self.name.duplicate(alloc)?,
        })
    }
}

impl Duplicate for Class {
    fn duplicate(&self, alloc: Global) -> Result<Class, NoMemory> {
        Ok(Class {
            value: self.value.duplicate(alloc)?,
            symbol: self.symbol,
        })
    }
}

impl<T: Duplicate + Drop> Duplicate for Classes<T> {
    fn duplicate(&self, alloc: Global) -> Result<Classes<T>, NoMemory> {
        Ok(Classes::of(duplicates(alloc, self.as_slice())?))
    }
}

impl Duplicate for Ramp {
    fn duplicate(&self, alloc: Global) -> Result<Ramp, NoMemory> {
        Ok(Ramp::of(self.kind(), duplicates(alloc, self.stops())?))
    }
}

impl Duplicate for Style {
    fn duplicate(&self, alloc: Global) -> Result<Style, NoMemory> {
        Ok(match self {
            Style::Single(symbol) => Style::Single(*symbol),
            Style::Categorised(field, classes, fallback) => Style::Categorised(
                field.duplicate(alloc)?,
                classes.duplicate(alloc)?,
                *fallback,
            ),
            Style::Graduated(field, classes) => {
                Style::Graduated(field.duplicate(alloc)?, classes.duplicate(alloc)?)
            }
            Style::Ramp(ramp) => Style::Ramp(ramp.duplicate(alloc)?),
        })
    }
}
