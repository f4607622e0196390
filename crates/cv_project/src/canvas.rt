//! Canvases.

ghost use Rattle.std.specs.Prelude.{◌≡◌, All, length};
ghost use Rattle.cv_geom.specs.Views.{is_size};
ghost use Rattle.cv_model.specs.Positions.{IsCoordinate};
ghost use Rattle.cv_model.specs.ProjectFiles.{IsCanvas};
ghost use Rattle.cv_project.specs.Canvases.{rectangle_of, extent_of, can_show, canvas_of};

use crate::kind::{AnyWhole, Kind};
use crate::list::{Each, members};
use crate::node::Node;
use crate::ranges::{CACHE, COORDINATE, MOST_PIXELS, SIDE};
use crate::refusal::Refusal;
use cv_model::{CanvasFile, Extent};

/// A rectangle of the map.
#[derive(Drop)]
pub struct ExtentOf;

impl Kind for ExtentOf {
    type Made = Extent;

    ghost made = { λ _. extent_of };

    ghost keeps = { λ _ _. Unit {0} };

    #[tactic(auto, unfolding(crate::specs::Canvases::extent_of))]
    fn read(&self, node: &Node<'_>) -> Result<Extent, Refusal> {
        let Some(items) = node.value().as_array() else {
            return Err(node.wrong_kind());
        };
        let items = items.as_slice();
        if items.len() != 4 {
            return Err(node.wrong_kind());
        }
        match members(&Each(COORDINATE), node, items) {
            Ok(numbers) => Ok(rectangle(numbers.as_slice())),
            Err(refusal) => Err(refusal),
        }
    }
}

/// The rectangle of xmin, ymin, xmax and ymax.
fn rectangle(numbers: &[i64]) -> Extent
    requires four { length numbers.now ≡ 4 }
    requires in_range { All IsCoordinate numbers.now }
    ensures { result ≡ rectangle_of numbers.now }
{
    Extent {
        xmin: numbers[0],
        ymin: numbers[1],
        xmax: numbers[2],
        ymax: numbers[3],
    }
}

/// Sides of 1 to 4,096 pixels, and at most 2,097,152 pixels.
fn is_size(width: u64, height: u64) -> bool
    ensures { result ≡ is_size width height }
{
    SIDE.least <= width
        && width <= SIDE.most
        && SIDE.least <= height
        && height <= SIDE.most
        && width * height <= MOST_PIXELS
}

/// Whether a canvas has a view of its extent, if one is named.
fn can_show(canvas: &CanvasFile) -> bool
    ensures { result ≡ can_show canvas.now.width canvas.now.height canvas.now.extent }
{
    match canvas.extent {
        Some(extent) => cv_geom::view_of(extent, canvas.width, canvas.height).is_ok(),
        None => true,
    }
}

/// A canvas.
#[derive(Drop)]
pub struct CanvasOf;

impl Kind for CanvasOf {
    type Made = CanvasFile;

    ghost made = { λ _. canvas_of };

    ghost keeps = { λ _. IsCanvas };

    #[tactic(auto, unfolding(crate::specs::Canvases::canvas_of))]
    fn read(&self, node: &Node<'_>) -> Result<CanvasFile, Refusal> {
        node.object()?;
        let width = node.required("width", &AnyWhole)?;
        let height = node.required("height", &AnyWhole)?;
        node.tested(is_size(width, height), "height")?;
        let cache = node.with_default("cache", &CACHE, 67_108_864)?;
        let extent = node.optional("extent", &ExtentOf)?;
        let width = width as u32;
        let height = height as u32;
        let canvas = CanvasFile {
            width,
            height,
            cache,
            extent,
        };
        node.tested(can_show(&canvas), "extent")?;
        node.no_others(&["cache", "extent", "height", "width"])?;
        Ok(canvas)
    }
}
