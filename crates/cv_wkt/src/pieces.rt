//! What has been read of a geometry.

ghost use Rattle.std.specs.Prelude.{◌≡◌, ◌++◌, ◌∷◌, [], OnOk};
ghost use Rattle.cv_wkt.specs.Pieces.{nothing, added, closed, emptied, lists};

use crate::place::Frame;
use cv_model::{Geometry, Line, NoMemory, Point, Polygon, Ring, Sequence};
use std::alloc::Global;
use std::marker::Model;
use std::mem;

/// How many points, of 16 bytes each, a path begins with room for: most rings and lines have more than four.
const PATH: u64 = 12;

/// How many items a list of another kind begins with room for: most geometries have one part, with one ring.
const LIST: u64 = 1;

/// Puts an item behind the others of a list. An empty list begins with room for so many.
fn put<T: Drop>(alloc: Global, list: &mut Sequence<T>, room: u64, item: T) -> Result<(), NoMemory>
    ensures { OnOk result (list.new ≡ list.old ++ item ∷ []) }
{
    if list.len() == 0 {
        *list = Sequence::with_room(alloc, room)?;
    }
    list.put(item)
}

/// The three lists of a geometry, the rings of its open polygon, and the points of its open path.
#[derive(Drop)]
pub struct Pieces {
    points: Sequence<Point>,
    lines: Sequence<Line>,
    polygons: Sequence<Polygon>,
    rings: Sequence<Ring>,
    path: Sequence<Point>,
}

impl Model for Pieces {
    ghost use Rattle.cv_wkt.specs.Pieces.{PieceLists};

    ghost Value = { PieceLists };

    ghost view = { λ p. record {
      points = p.points;
      lines = p.lines;
      polygons = p.polygons;
      rings = p.rings;
      path = p.path;
    } };
}

impl Pieces {
    /// Nothing has been read.
    pub fn new(alloc: Global) -> Pieces
        ensures { result ≡ nothing }
    {
        Pieces {
            points: Sequence::new(alloc),
            lines: Sequence::new(alloc),
            polygons: Sequence::new(alloc),
            rings: Sequence::new(alloc),
            path: Sequence::new(alloc),
        }
    }

    /// With a point of a list.
    pub fn add(&mut self, alloc: Global, frame: Frame, point: Point) -> Result<(), NoMemory>
        ensures { OnOk result (self.new ≡ added frame point self.old) }
    {
        match frame {
            Frame::LinePoints | Frame::RingPoints => put(alloc, &mut self.path, PATH, point)?,
            _ => put(alloc, &mut self.points, LIST, point)?,
        }
        Ok(())
    }

    /// With the end of a list.
    pub fn close(&mut self, alloc: Global, frame: Frame) -> Result<(), NoMemory>
        ensures { OnOk result (self.new ≡ closed frame self.old) }
    {
        match frame {
            Frame::LinePoints => {
                let path = mem::replace(&mut self.path, Sequence::new(alloc));
                put(alloc, &mut self.lines, LIST, path)?;
            }
            Frame::RingPoints => {
                let path = mem::replace(&mut self.path, Sequence::new(alloc));
                put(alloc, &mut self.rings, LIST, path)?;
            }
            Frame::Rings => {
                let rings = mem::replace(&mut self.rings, Sequence::new(alloc));
                put(alloc, &mut self.polygons, LIST, rings)?;
            }
            _ => {}
        }
        Ok(())
    }

    /// With an EMPTY in place of a list.
    pub fn leave_out(&mut self, alloc: Global, frame: Frame) -> Result<(), NoMemory>
        ensures { OnOk result (self.new ≡ emptied frame self.old) }
    {
        if let Frame::RingPoints = frame {
            put(alloc, &mut self.rings, LIST, Sequence::new(alloc))?;
        }
        Ok(())
    }

    /// The geometry, where no polygon and no path is open.
    pub fn finish(self) -> Geometry
        ensures { result ≡ lists self }
    {
        Geometry::of(self.points, self.lines, self.polygons)
    }
}
